ghost use Rattle.std.specs.Prelude.{◌≡◌, ◌<◌, ◌≤◌, ◌^◌, IsTrue, ◌≤ℤ◌, length, slice_index_or, replicate, OnOk, [], None};
ghost use Rattle.std.specs.List.{list_all};
ghost use Rattle.brace_model.specs.declared.world.Agent.{Agent};
ghost use Rattle.brace_model.specs.World.{RisesById, no_value};
ghost use Rattle.brace_model.specs.Lawful.{is_lawful_agent};
ghost use Rattle.brace_grid.specs.Grids.{grid_of};
ghost use Rattle.brace_plan.specs.Answers.{IsAnswer, greatest_visible};
ghost use Rattle.brace_plan.specs.inner.Walks.{IsScene, IsPlaced, IsAnswerOf};

use crate::answer::Answer;
use crate::desk::Desk;
use crate::plans::{Planned, Plans};
use crate::room::Room;
use crate::seat::{Placed, Scene, Seat};
use crate::walk::block;
use brace_grid::Grid;
use brace_model::{Agent, Program, Value};
use brace_num::NoMemory;
use std::alloc::Global;

/// How far agents of a program see at most, in millionths; 0 where they see nothing. It takes no
/// memory.
pub fn greatest_visible(program: &Program) -> i64
    ensures { result ≡ greatest_visible program.now }
{
    let mut greatest = 0;
    for class in program.classes.as_slice() {
        greatest = greatest.max(class.visible);
    }
    greatest
}

/// Replaces `locals` by a place for each constant.
fn open(locals: &mut Vec<Value>, constants: usize) -> Result<(), NoMemory>
    ensures { OnOk result (locals.new.items ≡ replicate constants no_value) }
{
    locals.clear();
    for _ in 0..constants {
        locals.push(Value::Flag(false))?;
    }
    Ok(())
}

/// Asks a plan of an agent, and adds what it says to an answer that has nothing.
fn ask_plan<'a>(
    alloc: Global,
    scene: &Scene<'a>,
    planned: &Planned,
    this: &Placed<'a>,
    locals: &mut Vec<Value>,
    desk: &mut Desk,
    answer: &mut Answer,
) -> Result<(), NoMemory>
    requires scene { IsScene scene.now }
    requires this { IsPlaced scene.now this.now }
    requires ticks { scene.now.tick ≤ 2 ^ 32 }
    requires said { answer.old.said.items ≡ [] }
    requires fault { answer.old.fault ≡ None }
    ensures answer { OnOk result (IsAnswerOf scene.now planned.now desk.old.drawer.seed
        this.now.agent.now answer.new) }
    ensures seed { desk.new.drawer.seed ≡ desk.old.drawer.seed }
{
    open(locals, planned.constants)?;
    desk.trail.clear();
    let seat = Seat {
        this: *this,
        outer: None,
        inner: None,
    };
    block(alloc, scene, &seat, &planned.actions, locals, desk, answer)?;
    Ok(())
}

impl Plans {
    /// Asks the query of the agent at a place of a list whose ids rise, over that list as if it
    /// were the world, and over a grid of it whose cells are at least as wide as the greatest
    /// visible range. The answer that stood there before goes.
    ///
    /// The agents are lawful ones of the program, and the tick is at most 2^32. `NoMemory` where
    /// memory is refused; the answer is lost then.
    pub fn ask(
        &self,
        alloc: Global,
        tick: u64,
        agents: &[Agent],
        grid: &Grid,
        place: u32,
        room: &mut Room,
        answer: &mut Answer,
    ) -> Result<(), NoMemory>
        requires lawful { IsTrue (list_all (is_lawful_agent self.now) agents.now) }
        requires rises { RisesById agents.now }
        requires grid { grid.now ≡ grid_of self.now agents.now grid.now.side }
        requires wide { greatest_visible self.now ≤ℤ grid.now.side }
        requires ticks { tick ≤ 2 ^ 32 }
        requires place { place < length agents.now }
        ensures answer { OnOk result ((d : Agent) → IsAnswer self.now room.old tick agents.now
            (slice_index_or agents.now place d) answer.new) }
        ensures seed { room.new ≡ room.old }
    {
        answer.said.clear();
        answer.fault = None;
        let agent = &agents[place as usize];
        let Some(planned) = self.queries.as_slice().get(agent.class as usize) else {
            return Ok(());
        };
        let scene = Scene {
            program: &self.program,
            agents,
            grid,
            tick,
        };
        let this = Placed { place, agent };
        ask_plan(
            alloc,
            &scene,
            planned,
            &this,
            &mut room.locals,
            &mut room.desk,
            answer,
        )
    }
}
