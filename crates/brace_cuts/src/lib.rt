//! The plane cut into parts: which part owns a point, how far parts stand from each other, and
//! plans that say which cuts hold from which tick on.
#![tactic(auto)]

mod file;
mod kinds;
mod line;
mod plan;
mod space;

pub use file::{read_plan, split_lines};
pub use kinds::{PlanFault, PlanKind};
pub use line::pieces;
pub use plan::{CutLine, CutPlan};
pub use space::{Cuts, rises};
