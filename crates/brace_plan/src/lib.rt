//! Queries as plans: compiled, with each loop narrowed to the agents that can matter to it, and
//! asked over a grid of agents; and rules, compiled.
#![tactic(auto)]

mod action;
mod answer;
mod asking;
mod constants;
mod counting;
mod desk;
mod leaving;
mod loops;
mod narrowing;
mod near;
mod planning;
mod plans;
mod query;
mod room;
mod rules;
mod seat;
mod told;
mod walk;

pub use action::{Action, Axis, Bound, Limit, Side};
pub use answer::{Answer, Said};
pub use asking::greatest_visible;
pub use leaving::LeaveFault;
pub use loops::Loop;
pub use near::stands;
pub use plans::{Plans, plan};
pub use query::{Query, Saying};
pub use room::Room;
pub use rules::{Rules, gifts_of};
pub use told::{Ruled, Told};
