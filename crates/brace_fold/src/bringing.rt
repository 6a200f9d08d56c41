ghost use Rattle.std.specs.Prelude.{◌≡◌, List, Some, nat_eq, slice_get, OnOk};
ghost use Rattle.std.specs.List.{IsDistinct};
ghost use Rattle.std.specs.List.Sorted.{IsPermutation};
ghost use Rattle.brace_model.specs.declared.program.Effect.{Effect};
ghost use Rattle.brace_model.specs.declared.program.Program.{Program};
ghost use Rattle.brace_model.specs.declared.world.Agent.{Agent};
ghost use Rattle.brace_model.specs.Query.{Saying};
ghost use Rattle.brace_model.specs.World.{class_of, ids};
ghost use Rattle.brace_eval.specs.Heard.{effects_in};
ghost use Rattle.brace_fold.specs.Rows.{AreColumns};
ghost use Rattle.brace_fold.specs.Sums.{AreSummed};
ghost use Rattle.brace_fold.specs.Hears.{Hears};
ghost use Rattle.brace_fold.specs.inner.Joins.{said_of, to_effect};
ghost use Rattle.brace_fold.specs.Asked.{by_row};

use crate::columns::{Columns, class_in, item_at};
use crate::table::Table;
use brace_code::Redo;
use brace_model::{Class, Comb, Program};

/// Joins the sum of an effect of an agent at a place to that of the agent's row in another table.
fn bring_effect(
    comb: Comb,
    effect: u32,
    told: &Table,
    place: u32,
    row: u32,
    said: &mut Table,
) -> Result<(), Redo>
    ensures { OnOk result ((program : Program) (sorted agents : List Agent) (a : Agent) (e : Effect)
        (more : List Saying) → IsDistinct nat_eq (ids agents)
        → slice_get sorted place ≡ Some a → slice_get agents row ≡ Some a
        → slice_get (effects_in (class_of program a)) effect ≡ Some e → e.comb ≡ comb
        → AreSummed program sorted more told.now
        → Hears program agents (to_effect a.id effect more) said.old said.new) }
{
    let Some(sum) = told.sum(effect, place) else {
        return Err(Redo);
    };
    if sum.count == 0 {
        return Ok(());
    }
    said.join(effect, row, comb, sum.number, sum.count)?;
    Ok(())
}

/// Joins the sums of an agent of a class at a place to those of the agent's row in another table.
fn bring_agent(
    class: &Class,
    told: &Table,
    place: u32,
    row: u32,
    said: &mut Table,
) -> Result<(), Redo>
    ensures { OnOk result ((program : Program) (sorted agents : List Agent) (a : Agent)
        (more : List Saying) → IsDistinct nat_eq (ids agents)
        → class_of program a ≡ Some class.now
        → slice_get sorted place ≡ Some a → slice_get agents row ≡ Some a
        → AreSummed program sorted more told.now
        → Hears program agents (said_of program more a) said.old said.new) }
{
    let effects = class.effects.as_slice();
    for k in 0..effects.len() {
        let Ok(number) = u32::try_from(k) else {
            return Err(Redo);
        };
        let Some(effect) = effects.get(k) else {
            return Err(Redo);
        };
        bring_effect(effect.comb, number, told, place, row, said)?;
    }
    Ok(())
}

/// Joins the sums of agents of columns, in an order of their rows, to those of their rows in
/// another table.
pub fn bring_all(
    program: &Program,
    columns: &Columns,
    order: &[u32],
    told: &Table,
    said: &mut Table,
) -> Result<(), Redo>
    ensures { OnOk result ((agents : List Agent) (more : List Saying)
        → AreColumns agents columns.now → IsDistinct nat_eq (ids agents)
        → IsPermutation agents (by_row agents order.now)
        → AreSummed program.now (by_row agents order.now) more told.now
        → Hears program.now agents more said.old said.new) }
{
    for k in 0..order.len() {
        let Ok(place) = u32::try_from(k) else {
            return Err(Redo);
        };
        let Some(row) = item_at(order, place) else {
            return Err(Redo);
        };
        let Some(number) = class_in(columns, row) else {
            return Err(Redo);
        };
        let Some(class) = program.classes.as_slice().get(number as usize) else {
            return Err(Redo);
        };
        bring_agent(class, told, place, row, said)?;
    }
    Ok(())
}
