//! The least load.
ghost use Rattle.std.specs.Prelude.{◌-◌, ◌<◌, ◌≤◌, IsTrue, length};
ghost use Rattle.brace_balance.specs.Loads.{never_falls};
ghost use Rattle.brace_balance.specs.Fillings.{filled};

use crate::fill::count_filled;

/// The load with which so many strips suffice, where one less does not. Each try fills each strip
/// by halving.
pub(crate) fn least_load(xs: &[i64], strips: u32) -> usize
    requires not_empty { 0 < length xs.now }
    requires sorted { IsTrue (never_falls xs.now) }
    requires strips { 1 ≤ strips }
    ensures suffices { length (filled result strips xs.now) < strips }
    ensures least { strips ≤ length (filled (result - 1) strips xs.now) }
    ensures positive { 1 ≤ result }
    ensures within { result ≤ length xs.now }
{
    let mut low = 0;
    let mut high = xs.len();
    while high - low > 1 {
        let middle = low + (high - low) / 2;
        if count_filled(xs, middle, strips) < strips {
            high = middle;
        } else {
            low = middle;
        }
    }
    high
}
