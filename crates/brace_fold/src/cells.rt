ghost use Rattle.std.specs.Prelude.{◌≡◌, ◌<◌, ◌≤◌, ◌+◌, ℕ, ℤ, List, pos, ◌<ℤ◌, ◌≤ℤ◌, true, length, map, slice_get, slice_index_or, Some, IfOk, IfSome, OnOk};
ghost use Rattle.brace_model.specs.declared.world.Agent.{Agent};
ghost use Rattle.brace_plan.specs.Answers.{greatest_visible};
ghost use Rattle.brace_fold.specs.declared.cells.Cells.{Cells};
ghost use Rattle.brace_fold.specs.Rows.{AreColumns};
ghost use Rattle.brace_fold.specs.inner.Sights.{AreLed, AreSorted, CellsRise, IsAround, IsRank, IsRun, cell_number, in_row};

use crate::columns::Columns;
use crate::halves::Halves;
use crate::sorting::sort_by_cell;
use crate::spotting::spots_in;
use brace_code::Redo;
use brace_model::Program;
use std::alloc::Global;

/// How far apart the numbers of cells are that lie side by side along x.
const HEIGHT: i64 = 524_288;

/// Where an agent stands, the number of the cell that it is in, its class, and its row: first that
/// of the columns, and then its place among the spots.
#[derive(Clone, Copy, Drop)]
pub struct Spot {
    pub x: i64,
    pub y: i64,
    pub cell: i64,
    pub class: u32,
    pub place: u32,
}

/// Agents in the order of square cells, column by column, one in each row. Cells far apart may
/// share a number.
#[derive(Drop)]
pub struct Cells {
    /// Where the agents stand, by rising cell.
    pub spots: Vec<Spot>,
    pub halves: Option<Halves>,
}

/// The agents of rows in cells.
#[derive(Drop)]
pub struct Sorted {
    pub cells: Cells,
    /// The row from which that of each spot came.
    pub order: Vec<u32>,
}

/// The number of the cell that a point is in: of its column, times `HEIGHT`, and its row.
pub fn cell_number(x: i64, y: i64, side: i64) -> Option<i64>
    requires { pos 0 <ℤ side }
    ensures { IfSome result (λ cell. cell ≡ cell_number side x y) }
{
    let first = x.div_euclid(side).checked_mul(HEIGHT)?;
    first.checked_add(y.div_euclid(side))
}

/// The places of spots.
fn order_of(alloc: Global, spots: &[Spot]) -> Result<Vec<u32>, Redo>
    ensures { IfOk result (λ order. order.items ≡ map (λ s. s.place) spots.now) }
{
    let mut order = Vec::with_capacity(alloc, spots.len())?;
    for spot in spots {
        order.push_reserved(spot.place);
    }
    Ok(order)
}

/// Gives spots their rows as places.
fn number_rows(spots: &mut [Spot]) -> Result<(), Redo>
    ensures long { length spots.new ≡ length spots.old }
    ensures each { OnOk result ((k : ℕ) (s : Spot) → k < length spots.old
        → slice_index_or spots.new k s ≡ in_row k (slice_index_or spots.old k s)) }
{
    for (k, spot) in spots.iter_mut().enumerate() {
        let Ok(row) = u32::try_from(k) else {
            return Err(Redo);
        };
        spot.place = row;
    }
    Ok(())
}

impl Sorted {
    /// The agents of columns in the order of cells of some side, which is above 0 and no less than
    /// any of them sees.
    pub fn of(
        alloc: Global,
        program: &Program,
        columns: &Columns,
        side: i64,
    ) -> Result<Sorted, Redo>
        requires side { pos 0 <ℤ side }
        requires wide { greatest_visible program.now ≤ℤ side }
        ensures { IfOk result (λ sorted. (agents : List Agent) → AreColumns agents columns.now
            → AreSorted program.now agents sorted) }
    {
        let mut spots = spots_in(alloc, program, columns, side)?;
        sort_by_cell(alloc, &mut spots)?;
        let order = order_of(alloc, &spots)?;
        number_rows(&mut spots)?;
        let halves = Halves::of(alloc, &spots, side)?;
        Ok(Sorted {
            cells: Cells { spots, halves },
            order,
        })
    }
}

/// Whether a place may be looked on from: all spots before it come before a cell, and some do.
#[inline(always)]
fn is_hint(spots: &[Spot], hint: usize, cell: i64) -> bool
    requires { CellsRise spots.now }
    ensures within { result ≡ true → hint ≤ length spots.now }
    ensures front { (k : ℕ) (d : Spot) → result ≡ true → k < hint
        → (slice_index_or spots.now k d).cell <ℤ cell }
{
    let Some(last) = hint.checked_sub(1) else {
        return false;
    };
    last < spots.len() && spots[last].cell < cell
}

/// How many spots come before a cell, found by halving.
#[inline(never)]
fn halved(spots: &[Spot], cell: i64) -> usize
    requires { CellsRise spots.now }
    ensures within { result ≤ length spots.now }
    ensures front { (k : ℕ) (d : Spot) → k < result
        → (slice_index_or spots.now k d).cell <ℤ cell }
{
    spots.partition_point(|spot: &Spot| spot.cell < cell)
}

/// How many spots come before a cell, if need be found by halving.
#[inline(always)]
fn start_of(spots: &[Spot], hint: usize, cell: i64) -> usize
    requires { CellsRise spots.now }
    ensures within { result ≤ length spots.now }
    ensures front { (k : ℕ) (d : Spot) → k < result
        → (slice_index_or spots.now k d).cell <ℤ cell }
{
    if is_hint(spots, hint, cell) {
        hint
    } else {
        halved(spots, cell)
    }
}

/// How many spots come before a cell, where all before a place do, and not all of the four from it
/// on: told without a branch, since it is as likely to be one of them as another.
#[inline(always)]
fn rank_in_four(spots: &[Spot], at: usize, cell: i64) -> usize
    requires rise { CellsRise spots.now }
    requires four { at + 4 ≤ length spots.now }
    requires front { (k : ℕ) (d : Spot) → k < at → (slice_index_or spots.now k d).cell <ℤ cell }
    requires last { (d : Spot) → cell ≤ℤ (slice_index_or spots.now (at + 3) d).cell }
    ensures { IsRank spots.now cell result }
{
    let pair = at + 2 * usize::from(spots[at + 1].cell < cell);
    pair + usize::from(spots[pair].cell < cell)
}

/// How many spots come before a cell, looked for one by one from a place on before which all do.
#[inline(never)]
fn rank_from(spots: &[Spot], from: usize, cell: i64) -> usize
    requires rise { CellsRise spots.now }
    requires within { from ≤ length spots.now }
    requires front { (k : ℕ) (d : Spot) → k < from
        → (slice_index_or spots.now k d).cell <ℤ cell }
    ensures { IsRank spots.now cell result }
{
    for at in from..spots.len() {
        if cell <= spots[at].cell {
            return at;
        }
    }
    spots.len()
}

/// How many spots come before a cell, looked for four by four from a place on that may be near.
#[inline(always)]
pub fn rank(spots: &[Spot], hint: usize, cell: i64) -> usize
    requires { CellsRise spots.now }
    ensures { IsRank spots.now cell result }
{
    let mut at = start_of(spots, hint, cell);
    while at + 4 <= spots.len() {
        if cell <= spots[at + 3].cell {
            return rank_in_four(spots, at, cell);
        }
        at += 4;
    }
    rank_from(spots, at, cell)
}

/// A run of spots by rising cell.
#[derive(Clone, Copy, Drop)]
pub struct Run {
    pub start: usize,
    pub end: usize,
}

/// The runs of the spots in and around a cell.
#[derive(Clone, Copy, Drop)]
pub struct Runs {
    pub cell: Option<i64>,
    pub west: Run,
    pub middle: Run,
    pub east: Run,
}

impl Runs {
    /// Runs around no cell.
    pub fn none() -> Runs
        ensures { (cells : Cells) → AreLed cells result }
    {
        let run = Run { start: 0, end: 0 };
        Runs {
            cell: None,
            west: run,
            middle: run,
            east: run,
        }
    }
}

/// The run of a cell and of those below and above it, looked for from another run on.
#[inline(always)]
fn run_from(spots: &[Spot], near: &Run, cell: i64) -> Result<Run, Redo>
    requires { CellsRise spots.now }
    ensures { IfOk result (IsRun spots.now cell) }
{
    let (Some(first), Some(past)) = (cell.checked_sub(1), cell.checked_add(2)) else {
        return Err(Redo);
    };
    Ok(Run {
        start: rank(spots, near.start, first),
        end: rank(spots, near.end, past),
    })
}

impl Cells {
    /// The runs around a cell, looked for from others on.
    fn runs_from(&self, near: &Runs, cell: i64) -> Result<Runs, Redo>
        requires { CellsRise self.now.spots.items }
        ensures cell { IfOk result (λ runs. runs.cell ≡ Some cell) }
        ensures around { IfOk result (IsAround self.now cell) }
    {
        let spots = self.spots.as_slice();
        let (Some(west), Some(east)) = (cell.checked_sub(HEIGHT), cell.checked_add(HEIGHT)) else {
            return Err(Redo);
        };
        Ok(Runs {
            cell: Some(cell),
            west: run_from(spots, &near.west, west)?,
            middle: run_from(spots, &near.middle, cell)?,
            east: run_from(spots, &near.east, east)?,
        })
    }

    /// Leads runs on to those around the agent of a row.
    pub fn lead(&self, runs: &mut Runs, row: u32) -> Result<(), Redo>
        requires rise { CellsRise self.now.spots.items }
        requires led { AreLed self.now runs.old }
        ensures there { OnOk result (row < length self.now.spots.items) }
        ensures led { OnOk result (AreLed self.now runs.new) }
        ensures around { OnOk result ((spot : Spot)
            → slice_get self.now.spots.items row ≡ Some spot
            → IsAround self.now spot.cell runs.new) }
    {
        let Some(spot) = self.spots.get(row as usize) else {
            return Err(Redo);
        };
        if runs.cell == Some(spot.cell) {
            return Ok(());
        }
        *runs = self.runs_from(runs, spot.cell)?;
        Ok(())
    }
}
