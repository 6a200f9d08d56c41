ghost use Rattle.std.specs.Prelude.{◌≡◌, ◌≤◌, ◌++◌, ◌^◌, [], List, IsTrue, OnOk};
ghost use Rattle.std.specs.List.{list_all};
ghost use Rattle.brace_model.specs.declared.fault.Fault.{Fault};
ghost use Rattle.brace_model.specs.declared.world.Agent.{Agent};
ghost use Rattle.brace_model.specs.Lawful.{is_lawful_agent};
ghost use Rattle.brace_model.specs.Query.{Saying};
ghost use Rattle.brace_model.specs.World.{RisesById};
ghost use Rattle.brace_eval.specs.Heard.{IsHeard, said_by, faults_by};
ghost use Rattle.brace_fold.specs.Asked.{agents_at};
ghost use Rattle.brace_fold.specs.Rows.{AreRows, rows_in};
ghost use Rattle.brace_fold.specs.inner.Asks.{AsksIn};

use crate::arranged::Arranged;
use crate::bringing::bring_all;
use crate::columns::{Columns, views};
use crate::joining::{join_all, most_effects};
use crate::lists::columns_of;
use crate::order::{places_at, places_from};
use crate::table::Table;
use brace_code::Redo;
use brace_eval::Heard;
use brace_model::{Agent, Program};
use brace_plan::Plans;
use std::alloc::Global;

/// Asks the agents of some rows of columns.
fn ask_rows(
    alloc: Global,
    plans: &Plans,
    program: &Program,
    columns: &Columns,
    seed: u64,
    tick: u64,
    asking: &[u32],
    said: &mut Table,
) -> Result<(), Redo>
    requires program { program.now ≡ plans.now }
    requires rows { AreRows program.now columns.now }
    requires ticks { tick ≤ 2 ^ 32 }
    ensures { OnOk result ((d : Agent) → AsksIn program.now seed tick
        (rows_in program.now columns.now) d asking.now said.old said.new) }
{
    let arranged = Arranged::of(alloc, program, columns)?;
    let places = places_from(alloc, &arranged.order, 0)?;
    let asking = places_at(alloc, &arranged.order, &places, 0, asking)?;
    let mut told = Table::nothing(alloc, arranged.order.len(), most_effects(program))?;
    arranged.ask_in(alloc, plans, program, seed, tick, &asking, &mut told)?;
    bring_all(program, columns, &arranged.order, &told, said)
}

/// Asks the agents at some places of a list.
fn ask_agents(
    alloc: Global,
    plans: &Plans,
    program: &Program,
    seed: u64,
    tick: u64,
    agents: &[Agent],
    asking: &[u32],
    said: &mut Table,
) -> Result<(), Redo>
    requires program { program.now ≡ plans.now }
    requires lawful { IsTrue (list_all (is_lawful_agent program.now) agents.now) }
    requires rises { RisesById agents.now }
    requires ticks { tick ≤ 2 ^ 32 }
    ensures { OnOk result ((d : Agent)
        → AsksIn program.now seed tick agents.now d asking.now said.old said.new) }
{
    let rows = columns_of(alloc, program, agents, &[])?;
    let states = views(alloc, &rows.states)?;
    let columns = rows.as_columns(&states);
    ask_rows(alloc, plans, program, &columns, seed, tick, asking, said)
}

/// Joins to what was heard all that the queries of the agents at some places of a list say, over
/// that list as if it were the world, with the draws of a seed. What was heard is lost on `Redo`,
/// which says nothing: a query may have faulted, or a total needs more than 64 bits, or memory was
/// refused.
///
/// The agents are lawful ones of the program whose ids rise, and the tick is at most 2^32.
pub fn fold(
    alloc: Global,
    plans: &Plans,
    seed: u64,
    tick: u64,
    agents: &[Agent],
    asking: &[u32],
    heard: &mut Heard,
) -> Result<(), Redo>
    requires lawful { IsTrue (list_all (is_lawful_agent plans.now) agents.now) }
    requires rises { RisesById agents.now }
    requires ticks { tick ≤ 2 ^ 32 }
    ensures heard { OnOk result ((d : Agent) (said : List Saying) (faults : List Fault)
        → IsHeard plans.now agents.now said faults heard.old
        → IsHeard plans.now agents.now
        (said ++ said_by plans.now seed tick agents.now (agents_at agents.now d asking.now))
        (faults ++ faults_by plans.now seed tick agents.now (agents_at agents.now d asking.now))
        heard.new) }
    ensures quiet { OnOk result ((d : Agent)
        → faults_by plans.now seed tick agents.now (agents_at agents.now d asking.now) ≡ []) }
{
    let program = plans.program();
    let mut said = Table::nothing(alloc, agents.len(), most_effects(program))?;
    ask_agents(alloc, plans, program, seed, tick, agents, asking, &mut said)?;
    join_all(program, agents, &said, heard)
}
