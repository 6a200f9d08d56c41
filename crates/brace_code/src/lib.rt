//! Postfix code of expressions, run in one environment or in many lanes at once.
#![tactic(auto)]

mod code;
mod columns;
mod compiling;
mod kernels;
mod lane;
mod lanes;
mod laws;
mod names;
mod operations;
mod running;
mod single;
mod splitting;
mod stack;
mod view;

pub use code::Code;
pub use compiling::compile;
pub use kernels::column_of;
pub use lane::{Draws, Frame, Lane, Redo, Row};
pub use lanes::{Lanes, Rows};
pub use laws::{lanes_and_single_runs_agree, lanes_have_the_values_of_expressions};
pub use names::Known;
pub use stack::Stack;
pub use view::{View, are_within};
