//! Shelves and sinks that move few bytes in one call.
#![tactic(auto)]

mod portioned;
mod shelf;
mod sink;

pub use portioned::Portioned;
