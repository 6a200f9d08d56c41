//! The queries of many agents at once, in lanes: what they all say, joined as it is said; and their
//! rules, what they all leave.
#![tactic(auto)]

mod arranged;
mod asking;
mod bringing;
mod cells;
mod columns;
mod crowd;
mod drawn;
mod finding;
mod folding;
mod gathering;
mod glancing;
mod groups;
mod halves;
mod joining;
mod leaving;
mod lists;
mod order;
mod outcome;
mod owning;
mod packed;
mod renewal;
mod renewing;
mod rows;
mod saying;
mod scene;
mod seeing;
mod sites;
mod sorting;
mod spoken;
mod spotting;
mod surviving;
mod table;
mod telling;
mod walk;

pub use arranged::Arranged;
pub use brace_code::Redo;
pub use columns::{Columns, expect_wide, views};
pub use folding::fold;
pub use joining::most_effects;
pub use lists::columns_of;
pub use order::{Moved, rows_from};
pub use renewal::{Renewed, renew_rows};
pub use renewing::renew;
pub use table::{Sum, Table};
