//! Equal numbers, which no cut parts.
ghost use Rattle.std.specs.Prelude.{◌≤◌, IsTrue, MatchOption, length};
ghost use Rattle.brace_balance.specs.Loads.{never_falls};
ghost use Rattle.brace_balance.specs.Fillings.{IsLeastStack, HasNoStack};

/// The least number that is there `n` times or more, if there is one.
pub(crate) fn least_stack(xs: &[i64], n: usize) -> Option<i64>
    requires positive { 1 ≤ n }
    requires within { n ≤ length xs.now }
    requires sorted { IsTrue (never_falls xs.now) }
    ensures { MatchOption result (HasNoStack xs.now n) (IsLeastStack xs.now n) }
{
    let others = n - 1;
    for i in 0..xs.len() - others {
        if xs[i] == xs[i + others] {
            return Some(xs[i]);
        }
    }
    None
}
