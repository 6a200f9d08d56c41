ghost use Rattle.std.specs.Prelude.{◌≡◌, IfOk, IfSome, IfNone, MatchBool};
ghost use Rattle.brace_model.specs.World.{RisesById, IsNumbered, world_of, world_with};

use crate::{Herd, Value};
use brace_num::{List, NoMemory};
use std::alloc::Global;
use std::marker::Model;

/// The values of an agent's states, in the order of declaration.
pub type Values = List<Value>;

/// An agent: its class by number, its id (at most 2^63 - 1), and its states.
#[derive(Debug, Drop)]
pub struct Agent {
    pub class: u32,
    pub id: u64,
    pub states: Values,
}

/// An agent with a child that has no id of its own yet.
#[derive(Debug, Clone, Copy, PartialEq, Eq, Drop)]
pub struct Parent {
    pub id: u64,
    /// The parent's class by number, which is the child's.
    pub class: u32,
}

/// What one part of a world tells the others before children get their ids.
#[derive(Debug, Drop)]
pub struct Census {
    /// How many of the part's agents live on.
    pub living: u64,
    /// How many values the states of these have.
    pub values: u64,
    /// The part's agents with a child, by rising id.
    pub parents: List<Parent>,
}

/// The agents of a tick, by rising id, and the next free id.
#[derive(Debug, Drop)]
pub struct World {
    agents: Herd,
    next: u64,
}

impl Model for World {
    ghost use Rattle.brace_model.specs.World.{World, IsNumbered, world_with};

    ghost Value = { World };

    ghost view = { λ world. world_with world.agents world.next };

    ghost invariant = { λ world. IsNumbered (world_with world.agents world.next) };
}

/// The greatest free id: no agent has a greater id than 2^63 - 1.
const LAST_NEXT: u64 = 9_223_372_036_854_775_808;

/// Whether each agent's id is above that of the agent before it.
pub fn rises(agents: &[Agent]) -> bool
    ensures { MatchBool result (RisesById agents.now) (RisesById agents.now → ⊥) }
{
    for i in 1..agents.len() {
        if agents[i - 1].id >= agents[i].id {
            return false;
        }
    }
    true
}

impl World {
    /// The world of these agents with the least next free id, or None exactly where their ids do
    /// not rise strictly or one of them is above 2^63 - 1. It takes no memory.
    pub fn from_rising(agents: Herd) -> Option<World>
        ensures world { IfSome result (λ world. world ≡ world_of agents) }
        ensures numbered { IfSome result IsNumbered }
        ensures none { IfNone result (IsNumbered (world_of agents) → ⊥) }
    {
        if !agents.rises() {
            return None;
        }
        let next = agents.least_next();
        World::with_next(agents, next)
    }

    /// The world of these agents with a next free id, or None exactly where their ids do not rise
    /// strictly, one of them is not below `next`, or `next` is above 2^63. It takes no memory.
    pub fn with_next(agents: Herd, next: u64) -> Option<World>
        ensures world { IfSome result (λ world. world ≡ world_with agents next) }
        ensures numbered { IfSome result IsNumbered }
        ensures none { IfNone result (IsNumbered (world_with agents next) → ⊥) }
    {
        if next <= LAST_NEXT && agents.rises() && agents.are_below(next) {
            Some(World { agents, next })
        } else {
            None
        }
    }

    /// The agents, by rising id.
    pub fn agents(&self) -> &Herd
        ensures same { result.now ≡ self.now.agents }
        ensures numbered { IsNumbered self.now }
    {
        &self.agents
    }

    /// The next free id: the one that the next child gets.
    pub fn next(&self) -> u64
        ensures same { result ≡ self.now.next }
        ensures numbered { IsNumbered self.now }
    {
        self.next
    }

    /// A world equal to this one.
    pub fn copy(&self, alloc: Global) -> Result<World, NoMemory>
        ensures { IfOk result (λ copy. copy ≡ self.now) }
    {
        let agents = self.agents.copy(alloc)?;
        Ok(World {
            agents,
            next: self.next,
        })
    }
}
