//! The publisher's side of a run: what a publisher is shown and what it makes of it, rows,
//! checkpoints, figures or sums; and the desk, which takes the worlds of all parts and has them
//! published.
#![tactic(auto)]

mod desk;
mod file_publisher;
mod files;
mod join;
mod keeper;
pub mod laws;
mod publisher;
mod rows;
mod sum_publisher;
mod watch_publisher;
mod watched;

pub use desk::{Desk, Lot, Stop};
pub use file_publisher::FilePublisher;
pub use files::File;
pub use join::joined;
pub use keeper::{Keeper, ShelfKeeper};
pub use publisher::{PubFault, Publisher};
pub use sum_publisher::SumPublisher;
pub use watch_publisher::WatchPublisher;
