//! What a part of the plane does with its agents in the work of a step: it asks their queries, in
//! lanes or cell by cell, joins what it is told, updates them, numbers their children, takes in
//! those that come, and prepares what it puts to others. Its agents stand in columns.
#![tactic(auto)]

mod asking;
mod census;
mod gather;
mod holding;
mod joining;
mod near;
mod packing;
mod places;
mod prepare;
mod query;
mod stance;
mod tell;
mod update;
mod work;

pub use holding::Held;
pub use near::listed;
pub use packing::packed;
pub use prepare::{prepared, prepared_show};
pub use query::Queries;
pub use stance::Stance;
pub use work::Worker;
