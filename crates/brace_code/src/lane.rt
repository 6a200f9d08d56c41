ghost use Rattle.std.specs.Prelude.{◌≡◌, IfSome, Some};
ghost use Rattle.brace_code.specs.declared.lane.Lane.{Lane};
ghost use Rattle.brace_code.specs.Lanes.{column_of, draws_at, row_at, row_of};

use crate::code::Operand;
use brace_model::Who;
use brace_num::NoMemory;
use std::alloc::{AllocError, AllocFailed};

/// Something faulted, did not fit, was not shown or found no memory: nothing is said.
#[derive(Debug, Clone, Copy, PartialEq, Eq, Drop)]
pub struct Redo;

impl From<AllocError> for Redo {
    fn from(_: AllocError) -> Redo {
        Redo
    }
}

impl<T: Drop> From<AllocFailed<T>> for Redo {
    fn from(_: AllocFailed<T>) -> Redo {
        Redo
    }
}

impl From<NoMemory> for Redo {
    fn from(_: NoMemory) -> Redo {
        Redo
    }
}

/// The rows at which a lane finds its agents and its constants.
#[derive(Clone, Copy, PartialEq, Eq, Drop)]
pub struct Lane {
    pub this: u32,
    pub outer: u32,
    pub inner: u32,
    /// The row of its constants.
    pub place: u32,
}

/// Which row of a lane is meant.
#[derive(Clone, Copy, PartialEq, Eq, Drop)]
pub enum Row {
    This,
    Outer,
    Inner,
    Place,
}

/// The draws of a site, one for each agent that asks.
#[derive(Clone, Copy)]
pub struct Draws<'a> {
    pub site: u32,
    pub words: &'a [i64],
}

/// The columns of words that lanes read: fixed numbers in millionths, flags as 0 or 1.
#[derive(Clone, Copy)]
pub struct Frame<'a> {
    /// A column for each state of the agents that ask, read at a lane's row `this`.
    pub this: &'a [&'a [i64]],
    /// The same of the agents of the outer loop, read at `outer`.
    pub outer: &'a [&'a [i64]],
    /// The same of the agents of the inner loop, read at `inner`.
    pub inner: &'a [&'a [i64]],
    /// A column for each constant, read at `place`.
    pub locals: &'a [&'a [i64]],
    /// A column for the total of each effect of the agents that ask, read at `this`.
    pub totals: &'a [&'a [i64]],
    /// Columns of draws, read at `this`.
    pub draws: &'a [Draws<'a>],
}

impl<'a> Frame<'a> {
    #[tactic(auto, using(crate::proofs::OperandLemmas::draws_more))]
    fn draws_at(&self, site: u32) -> Option<&'a [i64]>
        ensures { IfSome result (λ c. draws_at self.now.draws.now site ≡ Some c.now) }
    {
        for draws in self.draws {
            if draws.site == site {
                return Some(draws.words);
            }
        }
        None
    }

    /// The column that an operand is read from.
    pub fn column(&self, operand: Operand) -> Option<&'a [i64]>
        ensures { IfSome result (λ c. column_of self.now operand ≡ Some c.now) }
    {
        match operand {
            Operand::Word(_) => None,
            Operand::Field(Who::This, place) => self.this.get(place as usize).copied(),
            Operand::Field(Who::Outer, place) => self.outer.get(place as usize).copied(),
            Operand::Field(Who::Inner, place) => self.inner.get(place as usize).copied(),
            Operand::Total(effect, _, _) => self.totals.get(effect as usize).copied(),
            Operand::Local(n) => self.locals.get(n as usize).copied(),
            Operand::Rand(site) => self.draws_at(site),
        }
    }
}

/// The row at which an operand is read.
pub fn row_of(operand: Operand) -> Row
    ensures { (lane : Lane) → row_at result lane ≡ row_of operand lane }
{
    match operand {
        Operand::Word(_) | Operand::Local(_) => Row::Place,
        Operand::Field(Who::Outer, _) => Row::Outer,
        Operand::Field(Who::Inner, _) => Row::Inner,
        _ => Row::This,
    }
}
