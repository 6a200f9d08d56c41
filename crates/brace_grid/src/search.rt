ghost use Rattle.std.specs.Prelude.{◌≡◌, ◌+◌, ◌-◌, ◌*◌, ◌<◌, ◌≤◌, ℕ, ℤ, Bool, ◌&&◌, ◌++◌, map, take, drop, length, pos, ◌<ℤ◌, ◌≤ℤ◌, ◌+ℤ◌, OnOk, if◌then◌else◌, [], ◌∷◌};
ghost use Rattle.std.specs.List.{count_by, filter};
ghost use Rattle.brace_grid.specs.Grids.{digits, is_between};
ghost use Rattle.brace_grid.specs.inner.Layout.{before, AreLaidOut, CellsRise};
ghost use Rattle.brace_grid.specs.inner.Search.{IsRank, IsPlace, is_spot_inside, is_in_rows, is_up_to, is_in_block, is_chosen, block_of};

use crate::cells::{Cell, Layout, Spot};
use crate::looks::Looks;
use brace_num::{Area, NoMemory, Steps};
use std::sync::ledger::Ledger;

/// Cells by their least and greatest numbers along x and along y.
#[derive(Drop)]
pub struct Block {
    west: i64,
    east: i64,
    south: i64,
    north: i64,
}

/// The cells that an area touches, of a side of at least one unit.
pub fn block_of(area: &Area, side: i64) -> Block
    requires { pos 1000000 ≤ℤ side }
    ensures block { result ≡ block_of side area.now }
    ensures east { result.east <ℤ pos 9223372036854775807 }
    ensures north { result.north <ℤ pos 9223372036854775807 }
{
    Block {
        west: area.x0.div_euclid(side),
        east: area.x1.div_euclid(side),
        south: area.y0.div_euclid(side),
        north: area.y1.div_euclid(side),
    }
}

/// Whether a cell comes before cell (column, row).
fn is_before(cell: Cell, column: i64, row: i64) -> bool
    ensures { result ≡ before cell.column cell.row column row }
{
    cell.column < column || (cell.column == column && cell.row < row)
}

/// How many cells come before cell (column, row), found by halving.
fn rank<L: Ledger>(cells: &Looks<Cell>, column: i64, row: i64, steps: &mut Steps<L>) -> usize
    requires { CellsRise cells.now }
    ensures rank { IsRank cells.now column row result }
    ensures steps { steps.new ≤ steps.old + digits (length cells.now) }
{
    let mut low = 0;
    let mut high = cells.len();
    while low < high {
        let middle = low + (high - low) / 2;
        if is_before(cells.look(middle, steps), column, row) {
            low = middle + 1;
        } else {
            high = middle;
        }
    }
    low
}

/// How many spots are in cells before cell (column, row).
fn place<L: Ledger>(layout: &Layout, column: i64, row: i64, steps: &mut Steps<L>) -> usize
    requires laid { AreLaidOut layout.now.spots layout.now.cells }
    ensures place { IsPlace layout.now.spots column row result }
    ensures steps { steps.new ≤ steps.old + (1 + digits (length layout.now.cells)) }
{
    let rank = rank(&layout.cells, column, row, steps);
    if rank < layout.cells.len() {
        layout.cells.look(rank, steps).first
    } else {
        layout.spots.len()
    }
}

/// Whether a spot is in an area.
fn is_inside(area: &Area, spot: Spot) -> bool
    ensures { result ≡ is_spot_inside area.now spot }
{
    is_between(area.x0, area.x1, spot.x) && is_between(area.y0, area.y1, spot.y)
}

/// Whether a number is from `low` to `high`.
fn is_between(low: i64, high: i64, v: i64) -> bool
    ensures { result ≡ is_between low high v }
{
    low <= v && v <= high
}

/// Appends the index of a spot that is in an area.
fn take_inside(area: &Area, spot: Spot, out: &mut Vec<u32>) -> Result<(), NoMemory>
    ensures { OnOk result (out.new.items
        ≡ out.old.items ++ (if is_spot_inside area.now spot then spot.index ∷ [] else [])) }
{
    if is_inside(area, spot) {
        out.push(spot.index)?;
    }
    Ok(())
}

/// Whether a spot is in a column, and not behind a row of it.
fn is_up_to(spot: Spot, column: i64, north: i64) -> bool
    ensures { result ≡ is_up_to column north spot }
{
    spot.column == column && spot.row <= north
}

/// Appends the indices of those spots from `start` on that are in an area, up to the first that is
/// in another column or behind the row `north`. From `start` on come all spots of the column that
/// are in a row from `south` on.
fn gather<L: Ledger>(
    spots: &Looks<Spot>,
    start: usize,
    column: i64,
    north: i64,
    area: &Area,
    out: &mut Vec<u32>,
    steps: &mut Steps<L>,
) -> Result<(), NoMemory>
    requires { start ≤ length spots.now }
    ensures found { (south : ℤ) (end : ℕ) → IsPlace spots.now column south start
        → IsPlace spots.now column (north +ℤ pos 1) end
        → OnOk result (out.new.items
        ≡ out.old.items ++ map (λ s. s.index) (filter (is_spot_inside area.now)
        (take (end - start) (drop start spots.now)))) }
    ensures steps { (south : ℤ) (end : ℕ) → IsPlace spots.now column south start
        → IsPlace spots.now column (north +ℤ pos 1) end
        → steps.new ≤ steps.old + (end - start + 1) }
{
    for i in start..spots.len() {
        let spot = spots.look(i, steps);
        if !is_up_to(spot, column, north) {
            return Ok(());
        }
        take_inside(area, spot, out)?;
    }
    Ok(())
}

/// Appends the indices of the spots in an area that are in a column of a block.
fn gather_column<L: Ledger>(
    layout: &Layout,
    column: i64,
    block: &Block,
    area: &Area,
    out: &mut Vec<u32>,
    steps: &mut Steps<L>,
) -> Result<(), NoMemory>
    requires laid { AreLaidOut layout.now.spots layout.now.cells }
    ensures found { OnOk result ((q : ℕ → Bool) → count_by q out.new.items
        ≡ count_by q out.old.items + count_by (is_chosen (is_in_rows column block.now.south
        block.now.north) area.now q) layout.now.spots) }
    ensures steps { steps.new ≤ steps.old + (count_by (is_in_rows column block.now.south
        block.now.north) layout.now.spots + 2 * (1 + digits (length layout.now.cells))) }
{
    let start = place(layout, column, block.south, steps);
    gather(&layout.spots, start, column, block.north, area, out, steps)
}

/// Appends the indices of the spots in an area that are in a block of at most three columns.
pub fn gather_block<L: Ledger>(
    layout: &Layout,
    block: &Block,
    area: &Area,
    out: &mut Vec<u32>,
    steps: &mut Steps<L>,
) -> Result<(), NoMemory>
    requires laid { AreLaidOut layout.now.spots layout.now.cells }
    requires east { block.now.east <ℤ pos 9223372036854775807 }
    requires north { block.now.north <ℤ pos 9223372036854775807 }
    requires narrow { block.now.east ≤ℤ (block.now.west +ℤ pos 2) }
    ensures found { OnOk result ((q : ℕ → Bool) → count_by q out.new.items
        ≡ count_by q out.old.items
        + count_by (is_chosen (is_in_block block.now) area.now q) layout.now.spots) }
    ensures steps { steps.new ≤ steps.old + (count_by (is_in_block block.now) layout.now.spots
        + 6 * (1 + digits (length layout.now.cells))) }
{
    for column in block.west..block.east + 1 {
        gather_column(layout, column, block, area, out, steps)?;
    }
    Ok(())
}
