//! Effect inversion: a script split into a part in which agents say values to themselves alone and
//! one in which they say values to others alone, and how far one must look for what is said to an
//! agent.
#![tactic(auto)]

mod distance;
pub mod laws;
mod parts;

pub use distance::range;
pub use parts::{Forward, Inverse, split};
