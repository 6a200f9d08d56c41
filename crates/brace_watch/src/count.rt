//! The figures of agents.
ghost use Rattle.std.specs.Prelude.{◌≡◌, List, map, length, IfOk, IfSome, OnOk};
ghost use Rattle.brace_model.specs.declared.program.Value.{Value};
ghost use Rattle.brace_model.specs.declared.world.Agent.{Agent};
ghost use Rattle.brace_model.specs.World.{number};
ghost use Rattle.brace_cuts.specs.Space.{LawfulCuts};
ghost use Rattle.brace_comb.specs.Totals.{tally, tally_of};
ghost use Rattle.brace_watch.specs.Watches.{IsWatch};
ghost use Rattle.brace_watch.specs.Figures.{compares, meets, figure, box_figures, all_joined};
ghost use Rattle.brace_watch.specs.inner.Columns.{number_for, values_met, tested};

use crate::rows::{Rows, parted};
use crate::{Figures, Watch};
use brace_comb::{Combine, Total, identity, joined, merged};
use brace_cuts::Cuts;
use brace_model::{BinOp, Comb, Herd, Program, Value, number};
use brace_num::NoMemory;
use std::alloc::Global;

/// The figure of a watch over some agents, and that over the agents of each box that cuts make, by
/// its number. The join of the boxes' figures is that of all.
///
/// It finds the box of each agent once.
pub fn figures(
    alloc: Global,
    program: &Program,
    watch: &Watch,
    cuts: &Cuts,
    agents: &Herd,
) -> Result<Figures, NoMemory>
    requires watch { IsWatch program.now watch.now }
    requires cuts { LawfulCuts cuts.now }
    ensures whole { IfOk result (λ f. tally f.whole ≡ figure watch.now agents.now) }
    ensures boxes { IfOk result (λ f. map tally f.boxes.items
        ≡ box_figures program.now cuts.now watch.now agents.now) }
    ensures joined { IfOk result (λ f. all_joined watch.now.kind (map tally f.boxes.items)
        ≡ tally f.whole) }
{
    let mut boxes = parted(alloc, program, cuts, agents)?;
    figures_of(alloc, watch, &mut boxes)
}

/// The figures of a watch over the agents of boxes.
pub(crate) fn figures_of(
    alloc: Global,
    watch: &Watch,
    boxes: &mut [Rows],
) -> Result<Figures, NoMemory>
    ensures boxes { IfOk result (λ f. map tally f.boxes.items
        ≡ map (figure watch.now) boxes.old) }
    ensures joined { IfOk result (λ f. all_joined watch.now.kind (map tally f.boxes.items)
        ≡ tally f.whole) }
    ensures kept { OnOk result (boxes.new ≡ boxes.old) }
{
    let mut totals = Vec::with_capacity(alloc, boxes.len())?;
    for rows in boxes.iter_mut() {
        totals.push(rows.figure(alloc, watch)?)?;
    }
    Ok(Figures {
        whole: all_joined(watch.kind, &totals).ok_or(NoMemory)?,
        boxes: totals,
    })
}

/// Totals of a kind in one; None only where 128 bits do not hold its number, or 64 how many values
/// there are.
fn all_joined(kind: Comb, totals: &[Total]) -> Option<Total>
    ensures { IfSome result (λ t. tally t ≡ all_joined kind (map tally totals.now)) }
{
    let mut number = identity(kind);
    let mut count = 0u64;
    for total in totals {
        number = merged(kind, number, total.number())?;
        count = count.checked_add(total.count())?;
    }
    Total::make(kind, number, count)
}

/// The total of the numbers that agents have in the state of a watch, where their numbers in the
/// state of its condition meet that; None only where 128 bits do not hold it.
pub(crate) fn total_of(watch: &Watch, tests: &[i64], numbers: &[i64]) -> Option<Total>
    requires { length tests.now ≡ length numbers.now }
    ensures { IfSome result (λ t. (agents : List Agent)
        → tests.now ≡ map (number_for (tested watch.now.test)) agents
        → numbers.now ≡ map (number_for watch.now.field) agents
        → tally t ≡ tally_of watch.now.kind (values_met watch.now agents)) }
{
    let mut number = identity(watch.kind);
    let mut count = 0u64;
    for i in 0..numbers.len() {
        if meets(watch.test, tests[i]) {
            number = joined(watch.kind, number, Value::Int(numbers[i]))?;
            count += 1;
        }
    }
    Total::make(watch.kind, number, count)
}

/// Whether a number in the state of a condition meets it.
fn meets(test: Option<(u32, BinOp, Value)>, n: i64) -> bool
    ensures { (a : Agent) → n ≡ number_for (tested test) a → result ≡ meets test a }
{
    match test {
        None => true,
        Some((_, op, v)) => compares(op, n, number(v)),
    }
}

/// Whether two numbers stand so to each other.
fn compares(op: BinOp, x: i64, y: i64) -> bool
    ensures { (a b : Value) → x ≡ number a → y ≡ number b → result ≡ compares op a b }
{
    match op {
        BinOp::Lt => x < y,
        BinOp::Le => x <= y,
        BinOp::Gt => y < x,
        BinOp::Ge => y <= x,
        BinOp::Eq => x == y,
        _ => false,
    }
}
