//! The top call: a command from its words to its status.
#![tactic(auto)]

mod entry;
mod flow;
mod links;
mod settle;
mod team;

pub use entry::{run, run_alone};
