//! Agents that stay packed.
ghost use Rattle.std.specs.Prelude.{◌≡◌, ◌<◌, length, option_map, slice_index_or};
ghost use Rattle.brace_model.specs.declared.world.Agent.{Agent};
ghost use Rattle.brace_model.specs.World.{class_of, number, value_at};

use brace_model::{Class, Herd, Program};
use std::marker::Model;

/// An agent of a herd, by its place there. Contracts see the agent.
#[derive(Drop)]
pub(crate) struct Member<'a> {
    herd: &'a Herd,
    place: usize,
}

impl<'a> Model for Member<'a> {
    ghost use Rattle.std.specs.Prelude.{◌<◌, length, slice_index_or};
    ghost use Rattle.brace_model.specs.declared.world.Agent.{Agent};
    ghost use Rattle.brace_watch.specs.inner.Columns.{no_agent};

    ghost Value = { Agent };

    ghost view = { λ member. slice_index_or member.herd.now member.place no_agent };

    ghost invariant = { λ member. member.place < length member.herd.now };
}

impl<'a> Member<'a> {
    pub(crate) fn of(herd: &'a Herd, place: usize) -> Member<'a>
        requires { place < length herd.now }
        ensures { (d : Agent) → result ≡ slice_index_or herd.now place d }
    {
        Member { herd, place }
    }

    /// Its class, by its number.
    pub(crate) fn class(&self) -> u32
        ensures { result ≡ self.now.class }
    {
        self.herd.class(self.place)
    }

    /// The number of a state; 0 where it has no such state.
    pub(crate) fn number(&self, state: u32) -> i64
        ensures { result ≡ number (value_at self.now.states state) }
    {
        self.herd.number(self.place, state)
    }

    /// Its class, if the program has one of its number.
    pub(crate) fn class_in<'p>(&self, program: &'p Program) -> Option<&'p Class>
        ensures { option_map (λ c. c.now) result ≡ class_of program.now self.now }
    {
        program.classes.as_slice().get(self.class() as usize)
    }
}
