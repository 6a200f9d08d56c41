ghost use Rattle.std.specs.Prelude.{◌≡◌, ◌<◌, ◌≤◌, ◌-◌, ℕ, pos, IfOk, IfSome, IsTrue, drop, length, slice_index_or, take};
ghost use Rattle.brace_code.specs.Lanes.{Gives, words_of};
ghost use Rattle.brace_code.specs.inner.Words.{operand_word};
ghost use Rattle.brace_code.specs.Columns.{Numbers, Sees, Words};

use crate::code::{Code, Operand, operand_in};
use crate::lane::{Frame, Redo, row_of};
use crate::lanes::Lanes;
use brace_num::List;

/// What lanes read: the same word, the words of a column in turn, or those of a column at some
/// rows.
#[derive(Clone, Copy)]
pub enum View<'a> {
    Same(i64),
    Each(&'a [i64]),
    At(&'a [i64], &'a [u32]),
}

impl<'a> View<'a> {
    /// The word of the lane of a number.
    // Inlined where the kind is known, so that a loop does not ask for it.
    #[inline(always)]
    #[tactic(auto, using(crate::proofs::OperandLemmas::seen_word))]
    pub fn word(self, k: usize) -> Option<i64>
        ensures { IfSome result (λ word. (n : ℕ) → k < n → (k < length (words_of n self.entry))
            × (slice_index_or (words_of n self.entry) k (pos 0) ≡ word)) }
    {
        match self {
            View::Same(word) => Some(word),
            View::Each(words) => {
                let word = words.get(k)?;
                Some(*word)
            }
            View::At(column, rows) => {
                let row = rows.get(k)?;
                let word = column.get(*row as usize)?;
                Some(*word)
            }
        }
    }

    /// What the lanes from a place up to another read.
    #[tactic(auto, using(crate::proofs::ViewLemmas::part_rules))]
    pub fn part(self, from: usize, next: usize) -> Option<View<'a>>
        ensures long { IfSome result (λ part. length (words_of (next - from) part) ≡ next - from) }
        ensures words { IfSome result (λ part. (n : ℕ) → next ≤ n
            → words_of (next - from) part
            ≡ take (next - from) (drop from (words_of n self.entry))) }
    {
        match self {
            View::Same(word) => Some(View::Same(word)),
            View::Each(words) => {
                let words = words.get(from..next)?;
                Some(View::Each(words))
            }
            View::At(column, rows) => {
                let rows = rows.get(from..next)?;
                Some(View::At(column, rows))
            }
        }
    }
}

/// The highest of some rows; 0 where there is none.
fn highest(rows: &[u32]) -> u32
    ensures { (k : ℕ) → k < length rows.now → slice_index_or rows.now k 0 ≤ result }
{
    let mut highest = 0;
    for row in rows {
        highest = highest.max(*row);
    }
    highest
}

/// Whether each of some rows is one of so many.
pub fn are_within(rows: &[u32], count: usize) -> bool
    ensures { IsTrue result → (k : ℕ) → k < length rows.now
        → slice_index_or rows.now k 0 < count }
{
    rows.is_empty() || (highest(rows) as usize) < count
}

/// Whether a view has a word for each of so many lanes.
fn sees_all(view: View, count: usize) -> bool
    ensures { IsTrue result → (k : ℕ) → k < count → Sees view.entry k }
{
    match view {
        View::Same(_) => true,
        View::Each(words) => words.len() == count,
        View::At(column, rows) => rows.len() == count && are_within(rows, column.len()),
    }
}

/// What lanes read of an operand that is no word: its numbers, if each lane finds one.
#[tactic(auto, using(crate::proofs::ViewLemmas::read_numbers))]
pub fn read<'a>(operand: Operand, frame: &Frame<'a>, lanes: &'a Lanes) -> Result<View<'a>, Redo>
    ensures { IfOk result (λ view. ((k : ℕ) → k < length lanes.now → Sees view k)
        → Numbers frame.now operand lanes.now (words_of (length lanes.now) view)) }
{
    let Some(column) = frame.column(operand) else {
        return Err(Redo);
    };
    let Some(view) = lanes.view(column, row_of(operand)) else {
        return Err(Redo);
    };
    Ok(view)
}

/// The numbers of an operand, where they stand; None where a lane finds none.
fn numbers<'a>(operand: Operand, frame: &Frame<'a>, lanes: &'a Lanes) -> Option<View<'a>>
    ensures { IfSome result (λ view. Numbers frame.now operand lanes.now
        (words_of (length lanes.now) view)) }
{
    let Ok(view) = read(operand, frame, lanes) else {
        return None;
    };
    if !sees_all(view, lanes.len()) {
        return None;
    }
    Some(view)
}

/// The words of an operand, where they stand; None where a lane finds none.
#[tactic(auto, using(crate::proofs::ViewLemmas::operand_rules))]
fn operand_view<'a>(operand: Operand, frame: &Frame<'a>, lanes: &'a Lanes) -> Option<View<'a>>
    ensures { IfSome result (λ view. Words frame.now (λ scope. operand_word scope operand)
        lanes.now (words_of (length lanes.now) view)) }
{
    match operand {
        Operand::Word(word) => Some(View::Same(word)),
        Operand::Total(_, _, _) => None,
        Operand::Field(_, _) | Operand::Local(_) | Operand::Rand(_) => {
            let view = numbers(operand, frame, lanes)?;
            Some(view)
        }
    }
}

impl Code {
    /// The word of each lane's value, of the code's type, read where it stands; None where the code
    /// is no single operand, or nothing can be said.
    #[tactic(auto, using(crate::proofs::ViewLemmas::operand_gives))]
    pub fn view<'a>(&self, frame: &Frame<'a>, lanes: &'a Lanes) -> Option<View<'a>>
        ensures { IfSome result (λ view.
            Gives self.now frame.now lanes.now (words_of (length lanes.now) view)) }
    {
        if self.depth == 0 {
            return None;
        }
        let operand = operand_in(&self.instrs)?;
        let view = operand_view(operand, frame, lanes)?;
        Some(view)
    }
}
