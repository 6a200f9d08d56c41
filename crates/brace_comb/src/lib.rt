//! Totals of effects: what the values said to an effect come to, in any order and any grouping, and
//! what is given to the effects of agents, joined into one entry for each.
#![tactic(auto)]

mod combine;
mod entry;
pub mod laws;
mod merge;
mod numbers;
mod partial;
mod total;

pub use combine::Combine;
pub use entry::Entry;
pub use numbers::{identity, joined, merged};
pub use partial::Partial;
pub use total::Total;
