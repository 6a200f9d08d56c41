//! The command line: which words are one, and what they say.
#![tactic(auto)]

mod command;
mod fault;
mod line;
mod mode;
mod options;
mod read;
mod values;

pub use fault::LineFault;
pub use line::Line;
pub use mode::Mode;
pub use read::read_line;
