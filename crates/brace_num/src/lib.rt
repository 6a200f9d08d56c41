//! Exact whole-number arithmetic, spellings of numbers, and the plain types that every crate
//! shares.
#![tactic(auto)]

mod boxed;
mod exact;
mod generator;
mod kinds;
pub mod laws;
mod list;
mod memory;
mod print;
mod read;
mod steps;
mod text;

pub use boxed::Boxed;
pub use exact::{
    abs, add, clamp, fixed_div, fixed_mul, int_div, int_mul, int_rem, neg, sqrt, sub, to_fixed,
    trunc,
};
pub use generator::Generator;
pub use kinds::{Area, Kind};
pub use list::List;
pub use memory::NoMemory;
pub use print::{print_count, print_fixed, print_int, print_wide_fixed};
pub use read::{read_count, read_fixed, read_int};
pub use steps::Steps;
pub use text::Text;
