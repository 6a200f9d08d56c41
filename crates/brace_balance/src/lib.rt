//! Cuts along x that divide numbers into strips whose greatest load is the least possible, with a
//! proof of that which is checked by itself.
#![tactic(auto)]

mod balancing;
mod confirm;
mod fill;
mod kinds;
pub mod laws;
mod print;
mod search;
mod stack;

pub use balancing::balance;
pub use confirm::confirms;
pub use kinds::{Balance, Proof};
pub use print::{print_certificate, print_plan};

#[cfg(test)]
mod tests;
