//! The one place where the number of a total is started, joined with a value and merged.
ghost use Rattle.std.specs.Prelude.{◌≡◌, SomeIff, FitsSigned};
ghost use Rattle.std.specs.Int.{w128};
ghost use Rattle.brace_model.specs.Total.{identity, joined};
ghost use Rattle.brace_comb.specs.Totals.{brought, merged};

use brace_model::{Comb, Value, number};

/// The number of the total of no value.
pub fn identity(comb: Comb) -> i128
    ensures { result ≡ identity comb }
{
    match comb {
        Comb::Sum | Comb::Count | Comb::Or => 0,
        Comb::Min => i128::from(i64::MAX),
        Comb::Max => i128::from(i64::MIN),
    }
}

/// The number that one value brings to a total.
fn brought(comb: Comb, v: Value) -> i128
    ensures { result ≡ brought comb v }
{
    match comb {
        Comb::Count => 1,
        _ => i128::from(number(v)),
    }
}

/// Two numbers of totals of a combinator in one; None exactly where 128 bits do not hold it.
pub fn merged(comb: Comb, total: i128, more: i128) -> Option<i128>
    ensures { SomeIff result (FitsSigned w128 (merged comb total more)) (merged comb total more) }
{
    match comb {
        Comb::Sum | Comb::Count => total.checked_add(more),
        Comb::Min => Some(total.min(more)),
        Comb::Max | Comb::Or => Some(total.max(more)),
    }
}

/// The number of a total and one more value; None exactly where 128 bits do not hold it.
pub fn joined(comb: Comb, total: i128, v: Value) -> Option<i128>
    ensures { SomeIff result (FitsSigned w128 (joined comb total v)) (joined comb total v) }
{
    merged(comb, total, brought(comb, v))
}
