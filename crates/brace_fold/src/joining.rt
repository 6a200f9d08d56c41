ghost use Rattle.std.specs.Prelude.{◌≡◌, ◌++◌, List, Some, flat_map, slice_get, OnOk};
ghost use Rattle.brace_model.specs.declared.fault.Fault.{Fault};
ghost use Rattle.brace_model.specs.declared.program.Effect.{Effect};
ghost use Rattle.brace_model.specs.declared.world.Agent.{Agent};
ghost use Rattle.brace_model.specs.Query.{Saying};
ghost use Rattle.brace_model.specs.World.{RisesById, class_of};
ghost use Rattle.brace_eval.specs.Heard.{IsHeard, effects_in};
ghost use Rattle.brace_fold.specs.Sums.{AreSummed};
ghost use Rattle.brace_fold.specs.inner.Joins.{said_of, to_effect};

use crate::table::Table;
use brace_code::Redo;
use brace_eval::{Heard, effects_of};
use brace_model::{Agent, Program};

/// How many effects a class has at most.
pub fn most_effects(program: &Program) -> usize {
    let mut most = 0;
    for class in program.classes.as_slice() {
        most = most.max(class.effects.as_slice().len());
    }
    most
}

/// Joins what was said to an effect of the agent of a row to what was heard at its place.
fn join_effect(
    program: &Program,
    agents: &[Agent],
    table: &Table,
    row: u32,
    place: usize,
    effect: u32,
    heard: &mut Heard,
) -> Result<(), Redo>
    requires rises { RisesById agents.now }
    ensures { OnOk result ((rows : List Agent) (a : Agent) (e : Effect) (more said : List Saying)
        (faults : List Fault)
        → slice_get agents.now place ≡ Some a → slice_get rows row ≡ Some a
        → slice_get (effects_in (class_of program.now a)) effect ≡ Some e
        → AreSummed program.now rows more table.now
        → IsHeard program.now agents.now said faults heard.old
        → IsHeard program.now agents.now (said ++ to_effect a.id effect more) faults heard.new) }
{
    let Some(sum) = table.sum(effect, row) else {
        return Err(Redo);
    };
    if sum.count == 0 {
        return Ok(());
    }
    let (number, count) = (i128::from(sum.number), u64::from(sum.count));
    heard.join(program, agents, place, effect, number, count)?;
    Ok(())
}

/// Joins what was said to the agent of a row to what was heard at its place.
fn join_agent(
    program: &Program,
    agents: &[Agent],
    table: &Table,
    row: u32,
    place: usize,
    heard: &mut Heard,
) -> Result<(), Redo>
    requires rises { RisesById agents.now }
    ensures { OnOk result ((rows : List Agent) (a : Agent) (more said : List Saying)
        (faults : List Fault)
        → slice_get agents.now place ≡ Some a → slice_get rows row ≡ Some a
        → AreSummed program.now rows more table.now
        → IsHeard program.now agents.now said faults heard.old
        → IsHeard program.now agents.now (said ++ said_of program.now more a) faults heard.new) }
{
    let Some(a) = agents.get(place) else {
        return Err(Redo);
    };
    for k in 0..effects_of(program, a).len() {
        let Ok(effect) = u32::try_from(k) else {
            return Err(Redo);
        };
        join_effect(program, agents, table, row, place, effect, heard)?;
    }
    Ok(())
}

/// Joins what was said to all agents, each in the row of its place, to what was heard.
pub fn join_all(
    program: &Program,
    agents: &[Agent],
    table: &Table,
    heard: &mut Heard,
) -> Result<(), Redo>
    requires rises { RisesById agents.now }
    ensures { OnOk result ((more said : List Saying) (faults : List Fault)
        → AreSummed program.now agents.now more table.now
        → IsHeard program.now agents.now said faults heard.old
        → IsHeard program.now agents.now (said ++ flat_map (said_of program.now more) agents.now)
        faults heard.new) }
{
    for place in 0..agents.len() {
        let Ok(row) = u32::try_from(place) else {
            return Err(Redo);
        };
        join_agent(program, agents, table, row, place, heard)?;
    }
    Ok(())
}
