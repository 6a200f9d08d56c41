ghost use Rattle.std.specs.Prelude.{◌≡◌, ◌<◌, ◌≤◌, ◌^◌, IsTrue, ◌≤ℤ◌, length, map, slice_index_or, IfOk};
ghost use Rattle.std.specs.List.{list_all};
ghost use Rattle.brace_model.specs.declared.world.Agent.{Agent};
ghost use Rattle.brace_model.specs.World.{RisesById};
ghost use Rattle.brace_model.specs.Lawful.{is_lawful_agent};
ghost use Rattle.brace_grid.specs.Grids.{grid_of};
ghost use Rattle.brace_plan.specs.Answers.{ArePlaced, IsQuery, greatest_visible, saying_of, said_by};

use crate::answer::{Answer, Said};
use crate::plans::Plans;
use crate::room::Room;
use brace_grid::Grid;
use brace_model::{Agent, Fault, Value};
use brace_num::{List, NoMemory};
use std::alloc::Global;

/// A value said to an effect of an agent, which is told by its id.
#[derive(Clone, Copy, Drop)]
pub struct Saying {
    pub target: u64,
    pub field: u32,
    pub value: Value,
}

/// What the query of an agent says, in the order in which it is said, and its least fault.
#[derive(Drop)]
pub struct Query {
    pub said: List<Saying>,
    pub fault: Option<Fault>,
}

/// Values said to agents of a list, told by their ids.
fn by_id(alloc: Global, agents: &[Agent], said: &[Said]) -> Result<List<Saying>, NoMemory>
    requires { ArePlaced agents.now said.now }
    ensures { IfOk result (λ told. map said_by told ≡ map (saying_of agents.now) said.now) }
{
    let mut told = List::new(alloc);
    for one in said {
        told.push(Saying {
            target: agents[one.place as usize].id,
            field: one.field,
            value: one.value,
        })?;
    }
    Ok(told)
}

impl Plans {
    /// Asks the query of the agent at a place of a list whose ids rise, over that list as if it
    /// were the world, with the draws of a seed, and over a grid of it whose cells are at least as
    /// wide as the greatest visible range. `ask` says the same by places, in room that is used
    /// again.
    ///
    /// The agents are lawful ones of the program, and the tick is at most 2^32. `NoMemory` where
    /// memory is refused.
    pub fn query(
        &self,
        alloc: Global,
        seed: u64,
        tick: u64,
        agents: &[Agent],
        grid: &Grid,
        a: u32,
    ) -> Result<Query, NoMemory>
        requires lawful { IsTrue (list_all (is_lawful_agent self.now) agents.now) }
        requires rises { RisesById agents.now }
        requires grid { grid.now ≡ grid_of self.now agents.now grid.now.side }
        requires wide { greatest_visible self.now ≤ℤ grid.now.side }
        requires ticks { tick ≤ 2 ^ 32 }
        requires place { a < length agents.now }
        ensures { IfOk result (λ query. (d : Agent) → IsQuery self.now seed tick agents.now
            (slice_index_or agents.now a d) query) }
    {
        let mut room = Room::make(alloc, seed)?;
        let mut answer = Answer::none(alloc);
        self.ask(alloc, tick, agents, grid, a, &mut room, &mut answer)?;
        let said = by_id(alloc, agents, answer.said.as_slice())?;
        Ok(Query {
            said,
            fault: answer.fault,
        })
    }
}
