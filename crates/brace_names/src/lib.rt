//! What each name of a script stands for, and the first fault of its names.
#![tactic(auto)]

mod class;
mod declared;
mod entry;
mod expr;
mod fault;
mod finding;
mod kinds;
pub mod laws;
mod names;
mod place;
mod resolved;
mod scope;
mod stmt;
mod word;

pub use declared::{Classes, Field, field_table, next};
pub use entry::resolve;
pub use fault::{NameFault, Which};
pub use kinds::{
    binary_faults, binary_named, comb_named, is_sum, type_named, unary_faults, unary_named,
};
pub use names::Names;
pub use resolved::{Binding, Resolved, Target};
pub use scope::{Home, LoopField, Named, Scope};
