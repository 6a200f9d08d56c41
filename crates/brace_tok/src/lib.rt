//! The tokens of a script.
#![tactic(auto)]

mod fault;
mod kinds;
mod literals;
mod runs;
mod scan;
mod step;
mod symbols;
mod words;

pub use fault::TokFault;
pub use kinds::{TokKind, Token};
pub use scan::tokens;
