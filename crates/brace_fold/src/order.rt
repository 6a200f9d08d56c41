ghost use Rattle.std.specs.Prelude.{◌≡◌, ◌<◌, ◌≤◌, ◌++◌, [], ◌∷◌, ℕ, List, Some, filter, if◌then◌else◌, length, map, nat_lt, replicate, slice_get, IfOk, IfSome, OnOk};
ghost use Rattle.std.specs.List.{All, range_with_len};
ghost use Rattle.brace_model.specs.declared.program.Program.{Program};
ghost use Rattle.brace_model.specs.declared.world.Agent.{Agent};
ghost use Rattle.brace_fold.specs.Asked.{by_row};
ghost use Rattle.brace_fold.specs.Listed.{AreLent, agents_in};
ghost use Rattle.brace_fold.specs.Rows.{AreColumns, AreMoved, IsPicked, rows_in};
ghost use Rattle.brace_fold.specs.inner.Picks.{rows_along, rows_between, rows_picked};

use crate::columns::{Columns, item_at};
use brace_code::{Redo, are_within};
use brace_num::List;
use std::alloc::Global;

/// The place of each row from one on, as far as an order of rows has it.
pub fn places_from(alloc: Global, order: &[u32], first: usize) -> Result<Vec<u32>, Redo> {
    let Ok(end) = u32::try_from(order.len()) else {
        return Err(Redo);
    };
    let mut places = vec![in alloc; 0u32; order.len().saturating_sub(first)]?;
    for place in 0..end {
        if let Some(at) = (order[place as usize] as usize).checked_sub(first) {
            if at >= places.len() {
                return Err(Redo);
            }
            places[at] = place;
        }
    }
    Ok(places)
}

/// The place of a row, where a list of places by row, from one on, tells it.
fn place_at(order: &[u32], places: &[u32], first: usize, row: u32) -> Result<u32, Redo>
    ensures { IfOk result (λ place. slice_get order.now place ≡ Some row) }
{
    let Some(at) = (row as usize).checked_sub(first) else {
        return Err(Redo);
    };
    let Some(place) = places.get(at).copied() else {
        return Err(Redo);
    };
    if item_at(order, place) != Some(row) {
        return Err(Redo);
    }
    Ok(place)
}

/// The places of some rows, where a list of places by row, from one on, tells them.
pub fn places_at(
    alloc: Global,
    order: &[u32],
    places: &[u32],
    first: usize,
    rows: &[u32],
) -> Result<Vec<u32>, Redo>
    ensures { IfOk result (λ all. IsPicked all.items order.now rows.now) }
{
    let mut all = Vec::with_capacity(alloc, rows.len())?;
    for row in rows {
        all.push_reserved(place_at(order, places, first, *row)?);
    }
    Ok(all)
}

/// Adds a row that is wanted.
fn add_row(rows: &mut Vec<u32>, row: u32, wanted: bool) -> Result<(), Redo>
    ensures { OnOk result (rows.new.items ≡ rows.old.items ++ (if wanted then row ∷ [] else [])) }
{
    if wanted {
        rows.push(row)?;
    }
    Ok(())
}

/// The places of the first rows, so many, in an order of rows: they rise.
pub fn places_before(alloc: Global, order: &[u32], count: usize) -> Result<Vec<u32>, Redo>
    ensures { IfOk result (λ places.
        IsPicked places.items order.now (filter (λ row. nat_lt row count) order.now)) }
{
    let Ok(end) = u32::try_from(order.len()) else {
        return Err(Redo);
    };
    let mut places = Vec::with_capacity(alloc, count)?;
    for place in 0..end {
        let row = order[place as usize];
        add_row(&mut places, place, (row as usize) < count)?;
    }
    Ok(places)
}

/// The rows from one on, so many.
pub fn rows_from(alloc: Global, first: usize, count: usize) -> Result<Vec<u32>, Redo>
    ensures { IfOk result (λ rows. rows.items ≡ range_with_len first count) }
{
    let mut rows = Vec::with_capacity(alloc, count)?;
    for k in 0..count {
        let Some(at) = first.checked_add(k) else {
            return Err(Redo);
        };
        let Ok(row) = u32::try_from(at) else {
            return Err(Redo);
        };
        rows.push_reserved(row);
    }
    Ok(rows)
}

/// Of how many rows a slice has to be on average, that it pays to take them at once.
const LONG: usize = 8;

/// Rows in turn: from one on, up to another.
#[derive(Clone, Copy, Drop)]
struct Slice {
    from: usize,
    to: usize,
}

/// Rows of columns: each by itself, or in long slices, of which there are so many rows.
#[derive(Drop)]
enum Picks<'a> {
    Each(&'a [u32]),
    Slices(Vec<Slice>, usize),
}

/// The slices of rows, where they are not more than so many.
fn slices_of(alloc: Global, rows: &[u32], most: usize) -> Result<Option<Vec<Slice>>, Redo>
    ensures { IfOk result (λ found. IfSome found (λ all. rows_along all.items ≡ rows.now)) }
{
    let mut all = Vec::with_capacity(alloc, most)?;
    let (mut from, mut to) = (0, 0);
    for row in rows {
        let row = *row as usize;
        if row != to {
            if all.len() >= most {
                return Ok(None);
            }
            all.push(Slice { from, to })?;
            from = row;
        }
        to = row + 1;
    }
    all.push(Slice { from, to })?;
    Ok(Some(all))
}

/// Rows to be picked, in slices where these are long.
fn picks_of<'a>(alloc: Global, rows: &'a [u32]) -> Result<Picks<'a>, Redo>
    ensures { IfOk result (λ picks. rows_picked picks ≡ rows.now) }
{
    match slices_of(alloc, rows, rows.len() / LONG)? {
        Some(all) => Ok(Picks::Slices(all, rows.len())),
        None => Ok(Picks::Each(rows)),
    }
}

/// What a column has in a row that is within.
pub fn item_within<T: Copy>(column: &[T], row: u32) -> T
    requires { row < length column.now }
    ensures { slice_get column.now row ≡ Some result }
{
    column[row as usize]
}

/// How many rows to spare stand behind a part's own, as those of others come there.
pub fn spare_behind(rows: usize) -> usize {
    rows / 4
}

/// So many rows and some to spare.
fn with_spare(rows: usize, spare: usize) -> usize
    ensures { rows ≤ result }
{
    rows.saturating_add(spare)
}

/// So many rows of a part's own, with those to spare.
pub fn roomy(rows: usize) -> usize
    ensures { rows ≤ result }
{
    with_spare(rows, spare_behind(rows))
}

/// What a column has in some rows.
fn picked_each<T: Copy>(
    alloc: Global,
    column: &[T],
    rows: &[u32],
    spare: usize,
) -> Result<Vec<T>, Redo>
    ensures { IfOk result (λ out. IsPicked rows.now column.now out.items) }
{
    if !are_within(rows, column.len()) {
        return Err(Redo);
    }
    let mut out = Vec::with_capacity(alloc, with_spare(rows.len(), spare))?;
    for row in rows {
        out.push_reserved(item_within(column, *row));
    }
    Ok(out)
}

/// Adds what a column has in a slice of rows.
fn push_between<T: Copy>(column: &[T], slice: &Slice, out: &mut Vec<T>) -> Result<(), Redo>
    ensures { OnOk result ((rows : List ℕ) → IsPicked rows column.now out.old.items
        → IsPicked (rows ++ rows_between slice.now) column.now out.new.items) }
{
    if slice.to < slice.from || column.len() < slice.to {
        return Err(Redo);
    }
    out.extend_from_slice(&column[slice.from..slice.to])?;
    Ok(())
}

/// What a column has in slices of rows.
fn picked_all<T: Copy>(
    alloc: Global,
    column: &[T],
    slices: &[Slice],
    count: usize,
    spare: usize,
) -> Result<Vec<T>, Redo>
    ensures { IfOk result (λ out. IsPicked (rows_along slices.now) column.now out.items) }
{
    let mut out = Vec::with_capacity(alloc, with_spare(count, spare))?;
    for slice in slices {
        push_between(column, slice, &mut out)?;
    }
    Ok(out)
}

/// What a column has in some rows.
fn picked<T: Copy>(alloc: Global, column: &[T], picks: &Picks, spare: usize) -> Result<Vec<T>, Redo>
    ensures { IfOk result (λ out. IsPicked (rows_picked picks.now) column.now out.items) }
{
    match picks {
        Picks::Each(rows) => picked_each(alloc, column, rows, spare),
        Picks::Slices(all, count) => picked_all(alloc, column, all, *count, spare),
    }
}

/// The words of each column in some rows.
fn picked_columns(
    alloc: Global,
    columns: &[&[i64]],
    picks: &Picks,
    spare: usize,
) -> Result<Vec<List<i64>>, Redo>
    ensures { IfOk result (λ outs. map (λ c. map (slice_get c.now) (rows_picked picks.now))
        columns.now ≡ map (λ out. map Some out) outs.items) }
{
    let mut outs = Vec::with_capacity(alloc, columns.len())?;
    for column in columns {
        let out = picked(alloc, column, picks, spare)?;
        outs.push(List::from_vec(out))?;
    }
    Ok(outs)
}

/// Empty columns, so many, with room for so many rows.
fn empty(alloc: Global, columns: usize, rows: usize) -> Result<Vec<List<i64>>, Redo>
    ensures { IfOk result (λ all. all.items ≡ replicate columns []) }
{
    let mut all = Vec::with_capacity(alloc, columns)?;
    for _ in 0..columns {
        all.push(List::from_vec(Vec::with_capacity(alloc, rows)?))?;
    }
    Ok(all)
}

/// Columns whose rows stand in another order.
#[derive(Drop)]
pub struct Moved {
    pub classes: Vec<u32>,
    pub ids: Vec<u64>,
    pub states: Vec<List<i64>>,
}

impl Moved {
    /// No agents, with so many columns of states, and room for so many rows.
    pub fn with_room(alloc: Global, states: usize, rows: usize) -> Result<Moved, Redo>
        ensures rows { IfOk result (AreMoved []) }
        ensures wide { IfOk result (λ moved. length moved.states.items ≡ states) }
    {
        Ok(Moved {
            classes: Vec::with_capacity(alloc, rows)?,
            ids: Vec::with_capacity(alloc, rows)?,
            states: empty(alloc, states, rows)?,
        })
    }

    /// Columns in the order of rows, with room for some rows to spare.
    pub fn of(alloc: Global, columns: &Columns, order: &[u32], spare: usize) -> Result<Moved, Redo>
        ensures rows { IfOk result (λ moved. (agents : List Agent)
            → AreColumns agents columns.now → AreMoved (by_row agents order.now) moved) }
        ensures wide { IfOk result (λ moved.
            length moved.states.items ≡ length columns.now.states.now) }
        ensures within { IfOk result (λ _.
            All (λ row. row < length columns.now.ids.now) order.now) }
    {
        let picks = picks_of(alloc, order)?;
        Ok(Moved {
            classes: picked(alloc, columns.classes, &picks, spare)?,
            ids: picked(alloc, columns.ids, &picks, spare)?,
            states: picked_columns(alloc, columns.states, &picks, spare)?,
        })
    }

    /// The same columns, lent, of whose states these are views.
    pub fn as_columns<'a>(&'a self, states: &'a [&'a [i64]]) -> Columns<'a>
        ensures are { AreLent self.now states.now → (agents : List Agent) → AreMoved agents self.now
            → AreColumns agents result }
        ensures rows { AreLent self.now states.now → (program : Program)
            → rows_in program result ≡ agents_in program self.now }
        ensures wide { AreLent self.now states.now
            → length result.states.now ≡ length self.now.states.items }
    {
        Columns {
            classes: &self.classes,
            ids: &self.ids,
            states,
        }
    }
}
