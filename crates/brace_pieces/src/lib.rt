//! What the parts of a cut plane exchange: the setting of a run, its steps in order, the right
//! piece for each name, and how much each part gives.
#![tactic(auto)]

mod counts;
mod course;
mod fronts;
pub mod laws;
mod lists;
mod meet;
mod numbers;
mod piece;
mod setting;
mod steps;
mod turns;

pub use counts::Counts;
pub use course::Course;
pub use fronts::Fronts;
pub use lists::{border_of, class_at, moves_of, owned_of, owns, sorted};
pub use piece::{Cause, Piece, Shown};
pub use setting::{Setting, Stage, Step};
pub use turns::Turns;
