//! The agents of the records that are read.
ghost use Rattle.std.specs.Prelude.{◌≡◌, ◌≤◌, ◌+◌, ◌++◌, [], ◌∷◌, length, not, ◌||◌, nat_lt, IfOk, Ok, None};
ghost use Rattle.brace_model.specs.Step.{most_agents, most_values};
ghost use Rattle.brace_rows.specs.AgentFile.{fault_behind};
ghost use Rattle.brace_rows.specs.inner.Registers.{IsRegister};

use crate::RowKind;
use brace_model::Agent;
use brace_num::NoMemory;
use std::alloc::Global;
use std::collections::BTreeSet;

const MOST_AGENTS: usize = 1_048_576;

const MOST_VALUES: usize = 4_194_304;

/// Agents of different ids within the limits of a world, in the order of their records.
#[derive(Drop)]
pub(crate) struct Register {
    pub agents: Vec<Agent>,
    /// How many values the agents' states have.
    pub values: usize,
    pub ids: BTreeSet<u64>,
}

impl Register {
    pub fn new(alloc: Global) -> Register
        ensures empty { result.agents.items ≡ [] }
        ensures register { IsRegister result }
    {
        Register {
            agents: Vec::new(alloc),
            values: 0,
            ids: BTreeSet::new(alloc),
        }
    }

    /// One agent more, or why it is none of a file. After a fault the register is of no more use.
    pub fn enter(&mut self, agent: Agent) -> Result<Option<RowKind>, NoMemory>
        requires { IsRegister self.old }
        ensures judged { IfOk result (λ fault. fault
            ≡ fault_behind self.old.agents.items (Ok agent)) }
        ensures entered { result ≡ Ok None
            → self.new.agents.items ≡ self.old.agents.items ++ agent ∷ [] }
        ensures register { result ≡ Ok None → IsRegister self.new }
    {
        if !self.ids.insert(agent.id)? {
            return Ok(Some(RowKind::DuplicateId));
        }
        let more = agent.states.as_slice().len();
        if !have_room(self.agents.len(), self.values, more) {
            return Ok(Some(RowKind::TooMany));
        }
        self.values += more;
        self.agents.push(agent)?;
        Ok(None)
    }
}

// Whether one agent more, with so many more values, is within the limits.
fn have_room(agents: usize, values: usize, more: usize) -> bool
    requires { values ≤ most_values }
    ensures { result ≡ not (nat_lt most_agents (agents + 1) || nat_lt most_values (values + more)) }
{
    agents < MOST_AGENTS && more <= MOST_VALUES - values
}
