//! The layout of a script changes nothing but offsets.
#![tactic(auto)]

pub mod laws;
