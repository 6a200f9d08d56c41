//! Figures of a run: counts, sums, least and greatest values over agents of a class, of the whole
//! world and of each box that cuts make; and files that say which of them are watched.
#![tactic(auto)]

mod count;
mod file;
mod kinds;
mod line;
mod member;
mod name;
mod print;
mod rows;

pub use count::figures;
pub use file::read_watch;
pub use kinds::{Figures, Watch, WatchFault, WatchKind};
pub use print::print_watched;
