//! The evaluator of expressions, and one tick of a world, straight over the trees of a program.
#![tactic(auto)]

mod births;
mod expression;
mod fault;
mod hear;
mod heard;
pub mod laws;
mod ledger;
mod operations;
mod query;
mod scene;
mod seat;
mod step;
mod update;

pub use births::{birth_fault, is_too_far};
pub use expression::eval;
pub use fault::StepFault;
pub use heard::{Heard, effects_of};
pub use step::plain_step;
pub use update::left_by;
