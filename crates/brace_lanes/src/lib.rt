//! Lanes between actors on several threads, over a table whose rule each step keeps.
#![tactic(auto)]

mod cargo;
mod end;
mod lanes;
pub mod laws;
mod plays;
mod seat;
mod steps;
mod table;
#[cfg(test)]
mod tests;

pub use cargo::Cargo;
pub use end::LaneEnd;
pub use lanes::Lanes;
pub use seat::LaneSeat;
