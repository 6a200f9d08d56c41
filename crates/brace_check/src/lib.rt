//! The checks of a script whose names are resolved, and the program that it stands for.
#![tactic(auto)]

mod entry;
mod fault;
mod finding;
mod found;
pub mod laws;
mod meaning;
mod program;
mod share;
mod statement;
mod types;

pub use entry::check;
pub use fault::CheckFault;
