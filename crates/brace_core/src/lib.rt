//! The exchange core: actors that follow one schedule exchange pieces by name, in any order.
#![tactic(auto)]

mod actor;
mod exchange;
mod freight;
mod lane;
mod lanes;
pub mod laws;
mod name;
mod order;
#[cfg(test)]
mod tests;
mod turn;

pub use actor::Actor;
pub use exchange::Exchange;
pub use freight::Freight;
pub use lanes::PlainLanes;
pub use name::{Name, Turn};
pub use order::run_in_order;
pub use turn::{Went, make_turn};
