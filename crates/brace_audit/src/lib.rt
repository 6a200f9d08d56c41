//! The audit of a file: whether it is the published text of a run, by one tick of a world after
//! another, straight over the trees of the program.
#![tactic(auto)]

mod comparer;
mod fault;
pub mod laws;
mod run;
mod tick;

pub use fault::AuditFault;
pub use run::audit;
