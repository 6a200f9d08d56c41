//! Checkpoints: the world of a tick as a text, and back.
#![tactic(auto)]

mod kinds;
pub mod laws;
mod line;
mod read;
mod write;

pub use kinds::{Point, PointFault};
pub use read::read_checkpoint;
pub use write::{write_checkpoint, write_moment};
