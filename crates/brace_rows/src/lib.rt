//! Agent files, made agents, and published rows: a line for each agent of a tick.
#![tactic(auto)]

mod agent;
mod file;
mod kinds;
mod made;
mod record;
mod register;
mod spell;
mod tick;

pub use agent::print_agent;
pub use file::read_agents;
pub use kinds::{RowFault, RowKind};
pub use made::make_agents;
pub use spell::{class_named, read_id, read_value};
pub use tick::{print_rows, print_tick};
