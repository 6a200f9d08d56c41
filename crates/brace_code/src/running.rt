ghost use Rattle.std.specs.Prelude.{◌≡◌, ◌<◌, ◌∷◌, ℕ, [], IfOk, IfSome, OnOk, length};
ghost use Rattle.brace_code.specs.declared.code.Instr.TheVariants as instr;
ghost use Rattle.brace_code.specs.declared.code.Operand.TheVariants as operand;
ghost use Rattle.brace_code.specs.declared.code.Source.TheVariants as source;
ghost use Rattle.brace_code.specs.Lanes.{Gives};
ghost use Rattle.brace_code.specs.inner.Words.{binary_word, operand_word, source_word};
ghost use Rattle.brace_code.specs.inner.Runs.{deed, outcome};
ghost use Rattle.brace_code.specs.Columns.{firsts, HasFirst, IsSide, Joins, Leads, Numbers, Serves, Words};

use crate::code::{Code, Instr, Operand, Source, operand_in};
use crate::columns::Columns;
use crate::kernels::{First, binary_each, column_of, total_each, unary_each};
use crate::lane::{Frame, Redo};
use crate::lanes::Lanes;
use crate::splitting::{SideWords, merged, numbers};
use crate::view::{View, read};
use brace_model::{BinOp, Ty};
use brace_num::List;
use std::alloc::Global;

/// The number that each lane reads of an operand.
#[tactic(auto, using(crate::proofs::OperandLemmas::shown_numbers))]
fn shown(alloc: Global, operand: Operand, frame: &Frame, lanes: &Lanes) -> Result<List<i64>, Redo>
    ensures { IfOk result (λ words. Numbers frame.now operand lanes.now words) }
{
    let view = read(operand, frame, lanes)?;
    let words = column_of(alloc, view, lanes.len())?;
    Ok(words)
}

/// The word of an operand in each lane.
#[tactic(auto, using(crate::proofs::OperandLemmas::operand_rules))]
fn operand_column(
    alloc: Global,
    operand: Operand,
    frame: &Frame,
    lanes: &Lanes,
) -> Result<List<i64>, Redo>
    ensures { IfOk result (λ words.
        Words frame.now (λ scope. operand_word scope operand) lanes.now words) }
{
    match operand {
        Operand::Word(word) => column_of(alloc, View::Same(word), lanes.len()),
        Operand::Total(_, ty, _) => {
            let totals = shown(alloc, operand, frame, lanes)?;
            total_each(ty, totals)
        }
        Operand::Field(_, _) | Operand::Local(_) | Operand::Rand(_) => {
            let words = shown(alloc, operand, frame, lanes)?;
            Ok(words)
        }
    }
}

/// The words of an operand at some rows, where they stand; None where they do not, or are not its
/// numbers.
fn first_at<'a>(operand: Operand, frame: &Frame<'a>, lanes: &'a Lanes) -> Option<First<'a>>
    ensures long { IfSome result (λ first. length (firsts first) ≡ length lanes.now) }
    ensures words { IfSome result (λ first.
        ((k : ℕ) → k < length lanes.now → HasFirst first k)
        → Words frame.now (λ scope. operand_word scope operand) lanes.now (firsts first)) }
{
    if let Operand::Total(_, _, _) = operand {
        return None;
    }
    let Ok(view) = read(operand, frame, lanes) else {
        return None;
    };
    let View::At(column, rows) = view else {
        return None;
    };
    if rows.len() != lanes.len() {
        return None;
    }
    Some(First::At(column, rows))
}

/// The words of an operand in each lane. No column is made of words that stand at some rows.
fn first_of<'a>(
    alloc: Global,
    operand: Operand,
    frame: &Frame<'a>,
    lanes: &'a Lanes,
) -> Result<First<'a>, Redo>
    ensures long { IfOk result (λ first. length (firsts first) ≡ length lanes.now) }
    ensures words { IfOk result (λ first.
        ((k : ℕ) → k < length lanes.now → HasFirst first k)
        → Words frame.now (λ scope. operand_word scope operand) lanes.now (firsts first)) }
{
    if let Some(first) = first_at(operand, frame, lanes) {
        return Ok(first);
    }
    let words = operand_column(alloc, operand, frame, lanes)?;
    Ok(First::Own(words))
}

/// What an operation gives of its first words and of an operand in each lane. No column is made of
/// an operand whose word is its number.
#[tactic(auto, using(crate::proofs::OperandLemmas::join_word))]
fn with_operand(
    alloc: Global,
    op: BinOp,
    ty: Ty,
    a: First,
    operand: Operand,
    frame: &Frame,
    lanes: &Lanes,
) -> Result<List<i64>, Redo>
    requires { length (firsts a) ≡ length lanes.now }
    ensures firsts { IfOk result (λ _. (k : ℕ) → k < length lanes.now → HasFirst a.entry k) }
    ensures joins { IfOk result (λ words. Joins frame.now (λ scope. operand_word scope operand)
        (binary_word op ty) lanes.now (firsts a.entry) words) }
{
    match operand {
        Operand::Word(word) => {
            let words = binary_each(alloc, op, ty, a, &View::Same(word))?;
            Ok(words)
        }
        Operand::Total(_, _, _) => {
            let b = operand_column(alloc, operand, frame, lanes)?;
            let words = binary_each(alloc, op, ty, a, &View::Each(b.as_slice()))?;
            Ok(words)
        }
        Operand::Field(_, _) | Operand::Local(_) | Operand::Rand(_) => {
            let view = read(operand, frame, lanes)?;
            let words = binary_each(alloc, op, ty, a, &view)?;
            Ok(words)
        }
    }
}

/// The word of a source in each lane.
#[tactic(auto, using(crate::proofs::OperandLemmas::one_words))]
fn source_column(
    alloc: Global,
    source: Source,
    frame: &Frame,
    lanes: &Lanes,
) -> Result<List<i64>, Redo>
    ensures { IfOk result (λ words.
        Words frame.now (λ scope. source_word scope source) lanes.now words) }
{
    match source {
        Source::One(operand) => {
            let words = operand_column(alloc, operand, frame, lanes)?;
            Ok(words)
        }
        Source::Two(op, ty, _, first, second) => {
            let first = first_of(alloc, first, frame, lanes)?;
            let words = with_operand(alloc, op, ty, first, second, frame, lanes)?;
            Ok(words)
        }
    }
}

/// One instruction in each lane, on a stack of columns.
#[tactic(auto, using(crate::proofs::RunLemmas::step_rules))]
#[cycle(running_lanes)]
fn step(
    alloc: Global,
    instr: &Instr,
    room: usize,
    frame: &Frame,
    lanes: &Lanes,
    stack: &mut Columns,
) -> Result<(), Redo>
    ensures { OnOk result
        (Leads (deed instr.now) room frame.now lanes.now stack.old stack.new) }
{
    match instr {
        Instr::Push(source) => {
            if stack.height() >= room {
                return Err(Redo);
            }
            let words = source_column(alloc, *source, frame, lanes)?;
            stack.push(words)?;
        }
        Instr::Unary(op, _) => {
            let a = taken(stack, lanes)?;
            let words = unary_each(*op, a)?;
            stack.push(words)?;
        }
        Instr::Binary(op, ty, _) => {
            let b = taken(stack, lanes)?;
            let a = taken(stack, lanes)?;
            let words = binary_each(alloc, *op, *ty, First::Own(a), &View::Each(b.as_slice()))?;
            stack.push(words)?;
        }
        Instr::With(op, ty, _, operand) => {
            let a = taken(stack, lanes)?;
            let words = with_operand(alloc, *op, *ty, First::Own(a), *operand, frame, lanes)?;
            stack.push(words)?;
        }
        Instr::Choice(set, unset) => {
            let test = taken(stack, lanes)?;
            let below = stack.height();
            if below > room {
                return Err(Redo);
            }
            let ys = side_words(alloc, true, set, room - below, frame, lanes, &test)?;
            let ns = side_words(alloc, false, unset, room - below, frame, lanes, &test)?;
            let words = merged(test, &ys, &ns)?;
            stack.push(words)?;
        }
    }
    Ok(())
}

/// The column on top, which has a word for each lane.
fn taken(stack: &mut Columns, lanes: &Lanes) -> Result<List<i64>, Redo>
    ensures top { IfOk result (λ top. stack.old ≡ top ∷ stack.new) }
    ensures long { IfOk result (λ top. length top ≡ length lanes.now) }
{
    let Some(top) = stack.pop() else {
        return Err(Redo);
    };
    if top.as_slice().len() != lanes.len() {
        return Err(Redo);
    }
    Ok(top)
}

/// The word that code is, if it is nothing else.
fn word_in(code: &List<Instr>) -> Option<i64>
    ensures { IfSome result (λ word. code.now
        ≡ instr.Push (source.One (operand.Word word)) ∷ []) }
{
    match operand_in(code)? {
        Operand::Word(word) => Some(word),
        _ => None,
    }
}

/// What code leaves on top in the lanes whose word is set, or in those whose word is 0. Code that
/// is a word is not run.
#[tactic(auto, using(crate::proofs::RunLemmas::side_rules))]
#[cycle(running_lanes)]
fn side_words(
    alloc: Global,
    set: bool,
    code: &List<Instr>,
    room: usize,
    frame: &Frame,
    lanes: &Lanes,
    test: &List<i64>,
) -> Result<SideWords, Redo>
    requires { length test.now ≡ length lanes.now }
    ensures side { IfOk result (IsSide set test.now) }
    ensures serves { IfOk result (Serves frame.now (outcome code.now room) lanes.now) }
{
    if room == 0 {
        return Err(Redo);
    }
    if let Some(word) = word_in(code) {
        return Ok(SideWords::Same(word));
    }
    let at = numbers(alloc, set, test)?;
    let these = lanes.picked(alloc, at.as_slice())?;
    let words = run_lanes(alloc, code, room, frame, &these)?;
    Ok(SideWords::Each(at, words))
}

/// What code leaves on top in each lane; where a lane faults or memory runs out, `Redo`.
#[tactic(auto, using(crate::proofs::RunLemmas::run_rules))]
#[cycle(running_lanes)]
fn run_lanes(
    alloc: Global,
    code: &List<Instr>,
    room: usize,
    frame: &Frame,
    lanes: &Lanes,
) -> Result<List<i64>, Redo>
    ensures { IfOk result (λ words. Words frame.now (outcome code.now room) lanes.now words) }
{
    let mut stack = Columns::new(alloc);
    for instr in code.as_slice() {
        step(alloc, instr, room, frame, lanes, &mut stack)?;
    }
    taken(&mut stack, lanes)
}

impl Code {
    #[tactic(auto, using(crate::proofs::RunLemmas::code_gives))]
    /// The word of each lane's value, of the code's type: at each lane the code has a value in the
    /// lane's scope, and its word stands at the lane's place. `Redo` says nothing.
    pub fn eval_lanes(&self, alloc: Global, frame: &Frame, lanes: &Lanes) -> Result<List<i64>, Redo>
        ensures { IfOk result (λ words. Gives self.now frame.now lanes.now words) }
    {
        let words = run_lanes(alloc, &self.instrs, self.depth, frame, lanes)?;
        Ok(words)
    }
}
