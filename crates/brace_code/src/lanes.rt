ghost use Rattle.std.specs.Prelude.{◌≡◌, ◌<◌, ℕ, [], Some, length, map, slice_get, slice_index_or, IfOk, IfSome, IsTrue};
ghost use Rattle.brace_code.specs.declared.lane.Lane.{Lane};
ghost use Rattle.brace_code.specs.Lanes.{row_at, words_at, words_of};
ghost use Rattle.brace_code.specs.Columns.{ArePicked, Sees};
ghost use Rattle.brace_code.specs.RowLists.{at_place, lanes_of, row_in};

use crate::lane::{Lane, Redo, Row};
use crate::view::{View, are_within};
use std::alloc::Global;
use std::marker::Model;

/// The rows of lanes: the number of each, the same of all, or those of a list.
#[derive(Drop)]
pub enum Rows {
    Number,
    Same(u32),
    Each(Vec<u32>),
}

/// The row at a place of a list; 0 where there is none.
#[inline(always)]
fn row_or(rows: &[u32], number: u32) -> u32
    ensures { result ≡ slice_index_or rows.now number 0 }
{
    match rows.get(number as usize) {
        Some(row) => *row,
        None => 0,
    }
}

/// The rows of a list at some places.
fn picked_rows(alloc: Global, rows: &[u32], numbers: &[u32]) -> Result<Vec<u32>, Redo>
    ensures { IfOk result (λ picked. picked.items
        ≡ map (λ number. slice_index_or rows.now number 0) numbers.now) }
{
    let mut picked = Vec::with_capacity(alloc, numbers.len())?;
    for number in numbers {
        picked.push_reserved(row_or(rows, *number));
    }
    Ok(picked)
}

impl Rows {
    /// The row of the lane of a number.
    #[inline(always)]
    fn at(&self, number: u32) -> u32
        ensures { result ≡ row_in self.now number }
    {
        match self {
            Rows::Number => number,
            Rows::Same(row) => *row,
            Rows::Each(rows) => row_or(rows, number),
        }
    }

    /// The rows of the lanes of some numbers.
    #[tactic(auto, using(crate::proofs::RowLemmas::picked_row))]
    fn picked(&self, alloc: Global, numbers: &[u32]) -> Result<Rows, Redo>
        ensures { IfOk result (λ rows. (i : ℕ) → i < length numbers.now
            → row_in rows i ≡ row_in self.now (slice_index_or numbers.now i 0)) }
    {
        match self {
            Rows::Number => {
                let mut copied = Vec::with_capacity(alloc, numbers.len())?;
                copied.extend_from_slice(numbers)?;
                Ok(Rows::Each(copied))
            }
            Rows::Same(row) => Ok(Rows::Same(*row)),
            Rows::Each(rows) => {
                let picked = picked_rows(alloc, rows, numbers)?;
                Ok(Rows::Each(picked))
            }
        }
    }
}

/// Lanes by their rows. Contracts see the list of them.
#[derive(Drop)]
pub struct Lanes {
    count: usize,
    this: Rows,
    outer: Rows,
    inner: Rows,
    place: Rows,
}

impl Model for Lanes {
    ghost use Rattle.std.specs.Prelude.{List};
    ghost use Rattle.brace_code.specs.declared.lane.Lane.{Lane};
    ghost use Rattle.brace_code.specs.RowLists.{lanes_of};

    ghost Value = { List Lane };

    ghost view = { λ s. lanes_of s.count s.this s.outer s.inner s.place };
}

impl Lanes {
    /// So many lanes of these rows. Where a list of rows ends, 0 is the row.
    pub fn of(count: usize, this: Rows, outer: Rows, inner: Rows, place: Rows) -> Lanes
        ensures { result ≡ lanes_of count this outer inner place }
    {
        Lanes {
            count,
            this,
            outer,
            inner,
            place,
        }
    }

    /// How many lanes there are.
    #[tactic(auto, using(crate::proofs::RowLemmas::lane_rules))]
    pub fn len(&self) -> usize
        ensures { result ≡ length self.now }
    {
        self.count
    }

    /// Whether there is no lane.
    #[tactic(auto, using(crate::proofs::RowLemmas::lane_rules))]
    pub fn is_empty(&self) -> bool
        ensures { IsTrue result → self.now ≡ [] }
    {
        self.count == 0
    }

    /// The lane of a number.
    #[inline(always)]
    #[tactic(auto, using(crate::proofs::RowLemmas::lane_rules))]
    pub fn get(&self, number: u32) -> Option<Lane>
        ensures { IfSome result (λ lane. slice_get self.now number ≡ Some lane) }
    {
        if number as usize >= self.count {
            return None;
        }
        Some(Lane {
            this: self.this.at(number),
            outer: self.outer.at(number),
            inner: self.inner.at(number),
            place: self.place.at(number),
        })
    }

    /// The lanes of some numbers.
    #[tactic(auto, using(crate::proofs::RowLemmas::lane_rules))]
    pub fn picked(&self, alloc: Global, numbers: &[u32]) -> Result<Lanes, Redo>
        ensures { IfOk result (ArePicked self.now numbers.now) }
    {
        if !are_within(numbers, self.count) {
            return Err(Redo);
        }
        Ok(Lanes {
            count: numbers.len(),
            this: self.this.picked(alloc, numbers)?,
            outer: self.outer.picked(alloc, numbers)?,
            inner: self.inner.picked(alloc, numbers)?,
            place: self.place.picked(alloc, numbers)?,
        })
    }

    /// The same lanes, of which each has its own number as its place.
    #[tactic(auto, using(crate::proofs::RowLemmas::lane_rules))]
    pub fn numbered(self) -> Lanes
        ensures long { length result ≡ length self }
        ensures each { (k : ℕ) (d : Lane) → k < length self
            → slice_index_or result k d ≡ at_place k (slice_index_or self k d) }
    {
        Lanes {
            count: self.count,
            this: self.this,
            outer: self.outer,
            inner: self.inner,
            place: Rows::Number,
        }
    }

    /// The rows of a kind.
    #[tactic(auto, using(crate::proofs::RowLemmas::lane_rules))]
    fn of_kind(&self, row: Row) -> &Rows
        ensures { (k : ℕ) (d : Lane) → k < length self.now
            → row_in result.now k ≡ row_at row (slice_index_or self.now k d) }
    {
        match row {
            Row::This => &self.this,
            Row::Outer => &self.outer,
            Row::Inner => &self.inner,
            Row::Place => &self.place,
        }
    }

    /// A row of each lane; None where they stand in no list.
    #[tactic(auto, using(crate::proofs::RowLemmas::lane_rules))]
    pub fn rows(&self, row: Row) -> Option<&[u32]>
        ensures { IfSome result (λ rows. rows.now ≡ map (row_at row) self.now) }
    {
        let Rows::Each(rows) = self.of_kind(row) else {
            return None;
        };
        if rows.len() != self.count {
            return None;
        }
        Some(rows)
    }

    /// The words of a column at a row of each lane, where they stand.
    #[tactic(auto, using(crate::proofs::RowLemmas::view_rules))]
    pub fn view<'a>(&'a self, column: &'a [i64], row: Row) -> Option<View<'a>>
        ensures words { IfSome result (λ view.
            words_of (length self.now) view ≡ words_at column.now row self.now) }
        ensures within { IfSome result (λ view. (k : ℕ) (d : Lane) → k < length self.now
            → Sees view k → row_at row (slice_index_or self.now k d) < length column.now) }
    {
        match self.of_kind(row) {
            Rows::Number => {
                let words = column.get(..self.count)?;
                Some(View::Each(words))
            }
            Rows::Same(row) => {
                let word = column.get(*row as usize)?;
                Some(View::Same(*word))
            }
            Rows::Each(rows) => {
                if rows.len() != self.count {
                    return None;
                }
                Some(View::At(column, rows))
            }
        }
    }
}
