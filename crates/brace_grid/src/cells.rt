ghost use Rattle.std.specs.Prelude.{◌≡◌, IfOk, OnOk};
ghost use Rattle.brace_grid.specs.inner.Layout.{SpotsRise, AreCellsOf, is_in_last, with_spot};

use crate::looks::Looks;
use brace_num::NoMemory;
use std::alloc::Global;

/// Where an agent stands, in millionths, its index, and the numbers of its cell along x and y.
#[derive(Clone, Copy, Drop)]
pub struct Spot {
    pub column: i64,
    pub row: i64,
    pub x: i64,
    pub y: i64,
    pub index: u32,
}

/// A cell by its numbers along x and y, and the place of its first spot.
#[derive(Clone, Copy, Drop)]
pub struct Cell {
    pub column: i64,
    pub row: i64,
    pub first: usize,
}

/// Spots by rising cell, and the cells that hold one.
#[derive(Drop)]
pub struct Layout {
    pub spots: Looks<Spot>,
    pub cells: Looks<Cell>,
}

/// The cells of spots that rise by cell.
pub fn cells_of(alloc: Global, spots: &[Spot]) -> Result<Vec<Cell>, NoMemory>
    requires { SpotsRise spots.now }
    ensures { IfOk result (λ cells. AreCellsOf spots.now cells.items) }
{
    let mut cells: Vec<Cell> = Vec::new(alloc);
    for i in 0..spots.len() {
        include(&mut cells, &spots[i], i)?;
    }
    Ok(cells)
}

/// The cells with that of one more spot, which is at a place behind all others.
fn include(cells: &mut Vec<Cell>, spot: &Spot, place: usize) -> Result<(), NoMemory>
    ensures { OnOk result (cells.new.items ≡ with_spot cells.old.items spot.now place) }
{
    if !is_in_last(cells.as_slice(), spot) {
        cells.push(Cell {
            column: spot.column,
            row: spot.row,
            first: place,
        })?;
    }
    Ok(())
}

/// Whether a spot is in the last of the cells.
fn is_in_last(cells: &[Cell], spot: &Spot) -> bool
    ensures { result ≡ is_in_last cells.now spot.now }
{
    match cells.last() {
        Some(cell) => cell.column == spot.column && cell.row == spot.row,
        None => false,
    }
}
