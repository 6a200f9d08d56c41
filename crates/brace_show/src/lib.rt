//! The canonical text of a script.
#![tactic(auto)]

mod class;
mod entry;
mod expr;
mod frame;
pub mod laws;
mod literal;
mod stmt;

pub use entry::show;
