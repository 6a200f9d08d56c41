//! Agents on a grid of square cells: which of them stand in a small area, found with few looks.
#![tactic(auto)]

mod cells;
mod grid;
mod looks;
mod search;
mod spots;

pub use grid::Grid;
