ghost use Rattle.std.specs.Prelude.{◌≡◌, ◌≤◌, ◌^◌, List, Some, pos, ◌≤ℤ◌, length, slice_get, IfOk, OnOk};
ghost use Rattle.brace_model.specs.declared.program.Program.{Program};
ghost use Rattle.brace_model.specs.declared.world.Agent.{Agent};
ghost use Rattle.brace_model.specs.Query.{Saying};
ghost use Rattle.brace_model.specs.Value.{Scope};
ghost use Rattle.brace_code.specs.declared.lane.Lane.{Lane};
ghost use Rattle.brace_code.specs.Lanes.{Shows};
ghost use Rattle.brace_fold.specs.Asked.{by_row};
ghost use Rattle.brace_fold.specs.Becoming.{AreLeft};
ghost use Rattle.brace_fold.specs.Rows.{AreRows, rows_in};
ghost use Rattle.brace_fold.specs.Sums.{AreSummed};
ghost use Rattle.brace_fold.specs.inner.Crowds.{AreOfClass};
ghost use Rattle.brace_fold.specs.inner.Renewals.{LeavesRows};
ghost use Rattle.brace_fold.specs.inner.Rulings.{AreLanes, Leaves};

use crate::columns::{Columns, expect_wide, views};
use crate::drawn::{drawn_of, lent};
use crate::groups::{by_class, first_group};
use crate::leaving::lanes_set;
use crate::order::{Moved, roomy};
use crate::outcome::{Outcome, run_all, run_gifts};
use crate::renewing::{Ground, frame_of};
use crate::rows::lanes_of;
use crate::sites::rule_sites;
use crate::surviving::{children_in, keep_rows};
use crate::table::Table;
use crate::telling::told_columns;
use brace_code::{Frame, Redo};
use brace_model::{Agent, Class};
use brace_plan::{Plans, Ruled};
use std::alloc::Global;

/// What is left of agents in columns: those that live on, and the children.
#[derive(Drop)]
pub struct Renewed {
    pub left: Moved,
    pub born: Vec<Agent>,
}

/// What the rules of a class of a number come to for agents that words are shown of, in a row each;
/// their children are added.
fn outcome_in(
    alloc: Global,
    own: &Class,
    number: u32,
    ruled: &Ruled,
    frame: &Frame,
    columns: &Columns,
    born: &mut Vec<Agent>,
) -> Result<Outcome, Redo>
    requires { pos 0 ≤ℤ ruled.now.class.now.reach }
    ensures { IfOk result (λ out. (program : Program) (scope : Lane → Scope)
        → slice_get program.classes number ≡ Some own.now → Shows frame.now scope
        → (lanes : List Lane) × (AreLanes (length columns.now.ids.now) lanes
        × ((d : Agent) → Leaves ruled.now.class.now ruled.now.rules.now
        (rows_in program columns.now) lanes scope d out born.old.items born.new.items))) }
{
    let lanes = lanes_of(columns.ids.len());
    let out = run_all(alloc, ruled.rules, frame, &lanes)?;
    let parents = lanes_set(alloc, &out.spawn, &lanes)?;
    let codes = ruled.rules.gifts.as_slice();
    let gifts = run_gifts(alloc, codes, frame, &parents)?;
    let class = ruled.class;
    let mut more = children_in(alloc, own, number, class, &gifts, columns, &parents)?;
    born.append(&mut more)?;
    Ok(out)
}

/// Renews the agents of some rows, which are of one class of a number: those that live on and the
/// children are added.
fn renew_some(
    ground: &Ground,
    said: &Table,
    columns: &Columns,
    number: u32,
    rows: &[u32],
    renewed: &mut Renewed,
) -> Result<(), Redo>
    requires rows { AreRows ground.now.plans.now columns.now }
    requires ticks { ground.now.tick ≤ 2 ^ 32 }
    requires of_class { AreOfClass columns.now.classes.now number rows.now }
    ensures leaves { OnOk result
        (LeavesRows ground.now said.now columns.now rows.now renewed.old renewed.new) }
    ensures wide { OnOk result
        (length renewed.new.left.states.items ≡ length renewed.old.left.states.items) }
{
    let alloc = ground.alloc;
    let program = ground.plans.program();
    let Some(own) = program.classes.as_slice().get(number as usize) else {
        return Err(Redo);
    };
    let Some(ruled) = ground.plans.ruled(number) else {
        return Err(Redo);
    };
    let picked = Moved::of(alloc, columns, rows, 0)?;
    let states = views(alloc, &picked.states)?;
    let these = picked.as_columns(&states);
    expect_wide(program, &these)?;
    let sums = told_columns(alloc, own, said, rows)?;
    let totals = views(alloc, &sums)?;
    let mut sites = Vec::new(alloc);
    rule_sites(ruled.class, &mut sites)?;
    let drawn = drawn_of(alloc, ground.seed, ground.tick, &sites, these.ids)?;
    let draws = lent(alloc, &drawn)?;
    let frame = frame_of(these.states, &totals, &draws);
    let out = outcome_in(
        alloc,
        own,
        number,
        &ruled,
        &frame,
        &these,
        &mut renewed.born,
    )?;
    keep_rows(alloc, own, ruled.class, &out, &these, &mut renewed.left)
}

/// Renews the agents of some rows, those that stand together and are of one class at once: those
/// that live on and the children are added.
fn renew_all(
    ground: &Ground,
    said: &Table,
    columns: &Columns,
    rows: &[u32],
    renewed: &mut Renewed,
) -> Result<(), Redo>
    requires rows { AreRows ground.now.plans.now columns.now }
    requires ticks { ground.now.tick ≤ 2 ^ 32 }
    ensures leaves { OnOk result
        (LeavesRows ground.now said.now columns.now rows.now renewed.old renewed.new) }
    ensures wide { OnOk result
        (length renewed.new.left.states.items ≡ length renewed.old.left.states.items) }
{
    let mut left = rows;
    while !left.is_empty() {
        let group = first_group(columns.classes, left)?;
        renew_some(ground, said, columns, group.class, group.rows, renewed)?;
        left = group.rest;
    }
    Ok(())
}

/// Renews the agents of some rows of columns by what was said to them, with the draws of a seed:
/// class by class those that live on, and the children, which bear their parents' ids. `Redo` says
/// nothing: an update may have faulted, or a total needs more than 64 bits, or memory was refused.
///
/// The agents are lawful ones of the program, no two with one id, and the tick is at most 2^32.
pub fn renew_rows(
    alloc: Global,
    plans: &Plans,
    seed: u64,
    tick: u64,
    columns: &Columns,
    rows: &[u32],
    said: &Table,
) -> Result<Renewed, Redo>
    requires rows { AreRows plans.now columns.now }
    requires ticks { tick ≤ 2 ^ 32 }
    ensures leaves { IfOk result (λ renewed. (more : List Saying)
        → AreSummed plans.now (rows_in plans.now columns.now) more said.now
        → AreLeft plans.now seed tick more (by_row (rows_in plans.now columns.now) rows.now)
        renewed) }
    ensures wide { IfOk result (λ renewed.
        length renewed.left.states.items ≡ length columns.now.states.now) }
{
    let ground = Ground {
        alloc,
        plans,
        seed,
        tick,
    };
    let none = Moved::with_room(alloc, columns.states.len(), roomy(rows.len()))?;
    let mut renewed = Renewed {
        left: none,
        born: Vec::new(alloc),
    };
    let these = by_class(alloc, columns.classes, rows)?;
    renew_all(&ground, said, columns, &these, &mut renewed)?;
    Ok(renewed)
}
