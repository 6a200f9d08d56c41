//! A command, from its words to what is left of it once its files are read: what it may come to,
//! the files that it reads, what each of them is refused for, the texts and messages that it writes,
//! and all that is done for it before the parts of a run.
#![tactic(auto)]

mod answer;
mod command;
pub mod laws;
mod limits;
mod listing;
mod load;
mod messages;
mod places;
mod plan_text;
mod preparing;
mod published;
mod script;
mod script_fault;
mod status;
mod strips;
mod task;
mod trial;
mod watches;

pub use answer::{Answer, Stopped, refuse, say};
pub use command::{
    AuditCommand, BalanceCommand, Command, Manner, RunCommand, Start, TrialCommand, command_in,
    workers_of,
};
pub use messages::save_fault_message;
pub use preparing::{Work, prepare};
pub use status::Status;
pub use task::{Task, done, faulted};
pub use trial::trial_line;
