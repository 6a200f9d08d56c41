ghost use Rattle.std.specs.Prelude.{◌≡◌, ◌++◌, take, length, OnOk, OnErr};
ghost use Rattle.brace_model.specs.Published.{row, rows};

use crate::print_agent;
use brace_model::{Agent, Herd, Program, World};
use brace_num::{NoMemory, print_count};

/// Appends the rows of a world at a tick: a line `tick,class,id,values` for each agent, by rising
/// id.
///
/// A refused print leaves `out` as it was.
pub fn print_tick(
    out: &mut Vec<u8>,
    program: &Program,
    tick: u64,
    world: &World,
) -> Result<(), NoMemory>
    ensures printed { OnOk result (out.new.items
        ≡ out.old.items ++ rows program.now tick world.now.agents) }
    ensures kept { OnErr result (out.new.items ≡ out.old.items) }
{
    print_rows(out, program, tick, world.agents())
}

/// Appends the rows of agents at a tick: a line `tick,class,id,values` for each, in their order.
///
/// A refused print leaves `out` as it was.
pub fn print_rows(
    out: &mut Vec<u8>,
    program: &Program,
    tick: u64,
    agents: &Herd,
) -> Result<(), NoMemory>
    ensures printed { OnOk result (out.new.items
        ≡ out.old.items ++ rows program.now tick agents.now) }
    ensures kept { OnErr result (out.new.items ≡ out.old.items) }
{
    let before = out.len();
    let printed = append_rows(program, tick, agents, out);
    if printed.is_err() {
        out.truncate(before);
    }
    printed
}

// A refused append may leave a part of the rows behind `out`.
#[tactic(auto, using(brace_num::proofs::Printings::starts_more, crate::proofs::Texts::starts_here))]
fn append_rows(
    program: &Program,
    tick: u64,
    agents: &Herd,
    out: &mut Vec<u8>,
) -> Result<(), NoMemory>
    ensures printed { OnOk result (out.new.items
        ≡ out.old.items ++ rows program.now tick agents.now) }
    ensures only_appends { take (length out.old.items) out.new.items ≡ out.old.items }
{
    let mut values = agents.no_values();
    for place in 0..agents.len() {
        let agent = agents.agent(place, values)?;
        append_row(out, program, tick, &agent)?;
        values = agent.states.into_vec();
    }
    Ok(())
}

#[tactic(auto, using(brace_num::proofs::Printings::starts_more, crate::proofs::Texts::starts_here))]
fn append_row(
    out: &mut Vec<u8>,
    program: &Program,
    tick: u64,
    agent: &Agent,
) -> Result<(), NoMemory>
    ensures printed { OnOk result (out.new.items
        ≡ out.old.items ++ row program.now tick agent.now) }
    ensures only_appends { take (length out.old.items) out.new.items ≡ out.old.items }
{
    print_count(out, tick)?;
    out.extend_from_slice(b",")?;
    print_agent(out, program, agent)?;
    out.extend_from_slice(b"\n")?;
    Ok(())
}
