ghost use Rattle.std.specs.Prelude.{◌≡◌, ◌≤◌, ◌<◌, ◌^◌, ◌++◌, [], ◌∷◌, ℕ, List, length, map, pos, ◌≤ℤ◌, IsTrue, IfOk, Some, slice_get};
ghost use Rattle.std.specs.List.{All, list_all};
ghost use Rattle.brace_model.specs.declared.fault.Fault.{Fault};
ghost use Rattle.brace_model.specs.declared.world.Agent.{Agent};
ghost use Rattle.brace_model.specs.World.{RisesById};
ghost use Rattle.brace_model.specs.Lawful.{is_lawful_agent};
ghost use Rattle.brace_model.specs.Query.{Saying};
ghost use Rattle.brace_plan.specs.Answers.{saying_of, ArePlaced};
ghost use Rattle.brace_eval.specs.Heard.{IsHeard};
ghost use Rattle.brace_herd.specs.inner.Asked.{CanAsk, AreAsked, HearsOf, HearsAllOf};
ghost use Rattle.brace_herd.specs.Placed.{ArePlaces};

use brace_eval::Heard;
use brace_grid::Grid;
use brace_model::{Agent, Program, class_of, x_of, y_of};
use brace_num::NoMemory;
use brace_plan::{Answer, Plans, Room, Said, greatest_visible};
use std::alloc::Global;

/// The agents that a part holds in a tick, over which queries are asked, and a grid of them.
#[derive(Drop)]
pub struct Scene<'a> {
    alloc: Global,
    /// The script, of which are the agents.
    program: &'a Program,
    tick: u64,
    /// By rising id.
    held: &'a [Agent],
    grid: Grid,
}

/// An agent that is to be asked: its place among those that are held, and the numbers of the cell
/// that it stands in.
#[derive(Clone, Copy, Drop)]
pub struct Asked {
    column: i64,
    row: i64,
    place: u32,
}

/// What was heard so far, and what queries need while they are asked.
#[derive(Drop)]
pub struct Hearing {
    pub heard: Heard,
    pub room: Room,
    /// What the query says that was asked last.
    pub answer: Answer,
}

/// The least side of a grid's cells: one unit, in millionths.
const UNIT: i64 = 1_000_000;

impl<'a> Scene<'a> {
    /// The scene of a program's lawful agents, whose ids rise.
    pub fn open(
        alloc: Global,
        program: &'a Program,
        tick: u64,
        held: &'a [Agent],
    ) -> Result<Scene<'a>, NoMemory>
        requires lawful { IsTrue (list_all (is_lawful_agent program.now) held.now) }
        requires few { length held.now ≤ 2 ^ 20 }
        requires rises { RisesById held.now }
        requires ticks { tick ≤ 2 ^ 32 }
        ensures can_ask { IfOk result (CanAsk program.now) }
        ensures program { IfOk result (λ scene. scene.program.now ≡ program.now) }
        ensures tick { IfOk result (λ scene. scene.tick ≡ tick) }
        ensures held { IfOk result (λ scene. scene.held.now ≡ held.now) }
    {
        let side = greatest_visible(program).max(UNIT);
        let grid = Grid::build(alloc, program, held, side)?;
        Ok(Scene {
            alloc,
            program,
            tick,
            held,
            grid,
        })
    }

    /// Joins a value said to the agent at a place.
    fn say(&self, said: Said, heard: &mut Heard) -> Result<(), NoMemory>
        requires rises { RisesById self.now.held.now }
        requires placed { said.place < length self.now.held.now }
        ensures said { IfOk result (λ _. (before : List Saying) (faults : List Fault)
            → IsHeard self.now.program.now self.now.held.now before faults heard.old
            → IsHeard self.now.program.now self.now.held.now
            (before ++ saying_of self.now.held.now said ∷ []) faults heard.new) }
    {
        let place = said.place as usize;
        heard.say(self.program, self.held, place, said.field, said.value)?;
        Ok(())
    }

    /// Joins values said to agents by their places.
    fn join(&self, said: &[Said], heard: &mut Heard) -> Result<(), NoMemory>
        requires rises { RisesById self.now.held.now }
        requires placed { ArePlaced self.now.held.now said.now }
        ensures said { IfOk result (λ _. (before : List Saying) (faults : List Fault)
            → IsHeard self.now.program.now self.now.held.now before faults heard.old
            → IsHeard self.now.program.now self.now.held.now
            (before ++ map (saying_of self.now.held.now) said.now) faults heard.new) }
    {
        for one in said {
            self.say(*one, heard)?;
        }
        Ok(())
    }

    /// Asks the query of the agent at a place, and joins what it says.
    fn ask(&self, plans: &Plans, place: u32, hearing: &mut Hearing) -> Result<(), NoMemory>
        requires can_ask { CanAsk plans.now self.now }
        requires place { place < length self.now.held.now }
        ensures hears { IfOk result (λ _. (a : Agent)
            → slice_get self.now.held.now place ≡ Some a
            → HearsOf self.now plans.now hearing.old.room a hearing.old.heard hearing.new.heard) }
        ensures seed { hearing.new.room ≡ hearing.old.room }
    {
        let (room, answer) = (&mut hearing.room, &mut hearing.answer);
        plans.ask(
            self.alloc, self.tick, self.held, &self.grid, place, room, answer,
        )?;
        self.join(&hearing.answer.said, &mut hearing.heard)?;
        hearing.heard.found(hearing.answer.fault);
        Ok(())
    }

    /// An agent that is to be asked, by its place, and the cell that it stands in, of a side of at
    /// least one unit.
    fn asked(&self, place: u32, side: i64) -> Asked
        requires placed { place < length self.now.held.now }
        requires side { pos 1000000 ≤ℤ side }
        ensures { result.place ≡ place }
    {
        let a = &self.held[place as usize];
        let (x, y) = match class_of(self.program, a) {
            Some(class) => (x_of(class, a), y_of(class, a)),
            None => (0, 0),
        };
        Asked {
            column: x.div_euclid(side),
            row: y.div_euclid(side),
            place,
        }
    }

    /// The agents at some places, to be asked.
    fn all_asked(&self, places: &[u32]) -> Result<Vec<Asked>, NoMemory>
        requires placed { All (λ (place : ℕ). place < length self.now.held.now) places.now }
        ensures { IfOk result (λ asked. map (λ (one : Asked). one.place) asked.items
            ≡ places.now) }
    {
        let side = greatest_visible(self.program).max(UNIT);
        let mut asked = Vec::with_capacity(self.alloc, places.len())?;
        for place in places {
            asked.push(self.asked(*place, side))?;
        }
        Ok(asked)
    }

    /// Asks the queries of agents by their places, in turn.
    fn ask_each(
        &self,
        plans: &Plans,
        asked: &[Asked],
        hearing: &mut Hearing,
    ) -> Result<(), NoMemory>
        requires can_ask { CanAsk plans.now self.now }
        requires placed { All (λ (one : Asked). one.place < length self.now.held.now) asked.now }
        ensures hears { IfOk result (λ _. (asking : List Agent)
            → AreAsked self.now.held.now asking asked.now
            → HearsAllOf self.now plans.now hearing.old.room asking
            hearing.old.heard hearing.new.heard) }
        ensures seed { hearing.new.room ≡ hearing.old.room }
    {
        for one in asked {
            self.ask(plans, one.place, hearing)?;
        }
        Ok(())
    }

    /// Asks the queries of the agents at some places. Those that stand near each other are asked
    /// one after another, as they look at the same agents.
    pub fn ask_some(
        &self,
        plans: &Plans,
        places: &[u32],
        hearing: &mut Hearing,
    ) -> Result<(), NoMemory>
        requires can_ask { CanAsk plans.now self.now }
        requires placed { All (λ (place : ℕ). place < length self.now.held.now) places.now }
        ensures hears { IfOk result (λ _. (asking : List Agent)
            → ArePlaces self.now.held.now asking places.now
            → HearsAllOf self.now plans.now hearing.old.room asking
            hearing.old.heard hearing.new.heard) }
        ensures seed { hearing.new.room ≡ hearing.old.room }
    {
        let mut asked = self.all_asked(places)?;
        asked.sort_unstable_by_key(|one: &Asked| (one.column, one.row));
        self.ask_each(plans, asked.as_slice(), hearing)?;
        Ok(())
    }
}
