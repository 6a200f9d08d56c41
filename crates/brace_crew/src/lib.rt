//! The crew of a run: its parts and its publisher, who follow one schedule, and what the run comes
//! to.
#![tactic(auto)]

mod bench;
mod crew;
mod crowd;
mod linked;
mod member;
mod roster;
mod team;

pub use bench::{Bench, Drive};
pub use crew::{CrewFault, crew_run_alone};
pub use linked::{crew_run_linked, crew_run_on_links};
pub use member::Member;
pub use roster::benches;
pub use team::{crew_run, crew_run_on_one};
