ghost use Rattle.std.specs.Prelude.{◌≡◌, ◌++◌, List, length, IsTrue, IfOk, OnOk};
ghost use Rattle.std.specs.List.{list_all};
ghost use Rattle.brace_model.specs.declared.world.Agent.{Agent};
ghost use Rattle.brace_model.specs.Lawful.{is_lawful_agent};
ghost use Rattle.brace_fold.specs.Asked.{by_row};
ghost use Rattle.brace_fold.specs.Listed.{AreListed, agents_in};
ghost use Rattle.brace_fold.specs.Rows.{AreMoved};

use crate::columns::{expect_wide, views};
use crate::lists::agents_of;
use crate::order::{Moved, spare_behind};
use crate::surviving::push_agent;
use brace_code::Redo;
use brace_model::{Agent, Herd, Program};
use std::alloc::Global;

impl Moved {
    /// The agents, row by row.
    pub fn agents(&self, alloc: Global, program: &Program) -> Result<Vec<Agent>, Redo>
        ensures { IfOk result (λ agents. agents.items ≡ agents_in program.now self.now) }
    {
        let states = views(alloc, &self.states)?;
        let agents = agents_of(alloc, program, &self.as_columns(&states))?;
        Ok(agents)
    }

    /// Tells Redo where agents could not be read from the columns, as a class has more states than
    /// there are columns.
    pub fn expect_listed(&self, alloc: Global, program: &Program) -> Result<(), Redo>
        ensures { OnOk result ((agents : List Agent) → AreMoved agents self.now
            → IsTrue (list_all (is_lawful_agent program.now) agents)
            → AreListed program.now agents self.now) }
    {
        let states = views(alloc, &self.states)?;
        expect_wide(program, &self.as_columns(&states))?;
        Ok(())
    }

    /// Adds the agents of a herd.
    pub fn add(&mut self, more: &Herd) -> Result<(), Redo>
        ensures rows { OnOk result ((agents : List Agent) → AreMoved agents self.old
            → AreMoved (agents ++ more.now) self.new) }
        ensures wide { OnOk result
            (length self.new.states.items ≡ length self.old.states.items) }
    {
        let mut values = more.no_values();
        for place in 0..more.len() {
            let agent = more.agent(place, values)?;
            push_agent(self, &agent)?;
            values = agent.states.into_vec();
        }
        Ok(())
    }

    /// The agents of some rows, in columns of their own.
    pub fn picked(&self, alloc: Global, rows: &[u32]) -> Result<Moved, Redo>
        ensures { IfOk result (λ moved. (agents : List Agent) → AreMoved agents self.now
            → AreMoved (by_row agents rows.now) moved) }
    {
        let states = views(alloc, &self.states)?;
        let moved = Moved::of(
            alloc,
            &self.as_columns(&states),
            rows,
            spare_behind(rows.len()),
        )?;
        Ok(moved)
    }
}
