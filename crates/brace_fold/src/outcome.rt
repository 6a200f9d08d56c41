ghost use Rattle.std.specs.Prelude.{◌≡◌, Ok, IfOk};
ghost use Rattle.std.specs.List.{AllZip};
ghost use Rattle.brace_model.specs.Next.{holds};
ghost use Rattle.brace_fold.specs.inner.Rulings.{IsOutcome, IsRun, IsRunIf, is_set, value_in, word_value};

use crate::saying::typed;
use brace_code::{Code, Frame, Lanes, Redo};
use brace_model::{Ty, Value};
use brace_num::List;
use brace_plan::Rules;
use std::alloc::Global;

/// What code gives in each lane: words of a type.
#[derive(Drop)]
pub struct Column {
    pub ty: Ty,
    pub words: List<i64>,
}

/// What the rules of states and the conditions of `die` and `spawn` come to in each lane, where
/// they are written.
#[derive(Drop)]
pub struct Outcome {
    pub states: Vec<Option<Column>>,
    pub die: Option<Column>,
    pub spawn: Option<Column>,
}

/// What code gives in each lane.
fn run(alloc: Global, code: &Code, frame: &Frame, lanes: &Lanes) -> Result<Column, Redo>
    ensures { IfOk result (IsRun frame.now lanes.now code.now) }
{
    let words = code.eval_lanes(alloc, frame, lanes)?;
    Ok(Column {
        ty: code.ty(),
        words,
    })
}

/// What a rule or a condition gives in each lane, where there is one.
fn run_if(
    alloc: Global,
    rule: &Option<Code>,
    frame: &Frame,
    lanes: &Lanes,
) -> Result<Option<Column>, Redo>
    ensures { IfOk result (IsRunIf frame.now lanes.now rule.now) }
{
    match rule {
        None => Ok(None),
        Some(code) => Ok(Some(run(alloc, code, frame, lanes)?)),
    }
}

/// What each of some rules gives.
fn run_rules(
    alloc: Global,
    rules: &[Option<Code>],
    frame: &Frame,
    lanes: &Lanes,
) -> Result<Vec<Option<Column>>, Redo>
    ensures { IfOk result (λ columns.
        AllZip (IsRunIf frame.now lanes.now) rules.now columns.items) }
{
    let mut columns = Vec::with_capacity(alloc, rules.len())?;
    for rule in rules {
        let column = run_if(alloc, rule, frame, lanes)?;
        columns.push(column)?;
    }
    Ok(columns)
}

/// What each of some gifts gives.
pub fn run_gifts(
    alloc: Global,
    gifts: &[Code],
    frame: &Frame,
    lanes: &Lanes,
) -> Result<Vec<Column>, Redo>
    ensures { IfOk result (λ columns. AllZip (IsRun frame.now lanes.now) gifts.now columns.items) }
{
    let mut columns = Vec::with_capacity(alloc, gifts.len())?;
    for gift in gifts {
        let column = run(alloc, gift, frame, lanes)?;
        columns.push(column)?;
    }
    Ok(columns)
}

/// What the rules of a class come to in each lane.
pub fn run_all(alloc: Global, rules: &Rules, frame: &Frame, lanes: &Lanes) -> Result<Outcome, Redo>
    ensures { IfOk result (IsOutcome frame.now lanes.now rules.now) }
{
    let states = run_rules(alloc, rules.states.as_slice(), frame, lanes)?;
    let die = run_if(alloc, &rules.die, frame, lanes)?;
    let spawn = run_if(alloc, &rules.spawn, frame, lanes)?;
    Ok(Outcome { states, die, spawn })
}

/// The value in a row of a column.
pub fn word_value(column: &Column, row: usize) -> Value
    ensures { result ≡ word_value column.now row }
{
    let word = column.words.as_slice().get(row).copied().unwrap_or(0);
    typed(column.ty, word)
}

/// The value of a rule in a row; without a rule a state keeps its value.
pub fn value_in(column: &Option<Column>, row: usize, old: Value) -> Value
    ensures { result ≡ value_in column.now row old }
{
    match column {
        None => old,
        Some(column) => word_value(column, row),
    }
}

/// Whether a value is the flag `true`.
fn is_true(v: Value) -> bool
    ensures { result ≡ holds (Ok v) }
{
    match v {
        Value::Flag(b) => b,
        _ => false,
    }
}

/// Whether a condition holds in a row; one that is not written never does.
pub fn is_set(column: &Option<Column>, row: usize) -> bool
    ensures { result ≡ is_set column.now row }
{
    is_true(value_in(column, row, Value::Flag(false)))
}
