ghost use Rattle.std.specs.Prelude.{◌≡◌, IfSome, IfNone, IsSomeAnd};
ghost use Rattle.brace_comb.specs.Totals.{tally, join, IsNumberOf, IsIdentity, CanJoin, IsBounded};

use crate::Combine;
use crate::numbers::{identity, joined, merged};
use brace_model::{Comb, Value};

/// What the values said to an effect come to, and last in each form how many values they are.
#[derive(Debug, Clone, Copy, PartialEq, Eq, Drop)]
pub enum Total {
    /// The exact sum, in millionths where the effect is fixed.
    Sum(i128, u64),
    /// The least value, or i64's greatest number where there is none.
    Least(i64, u64),
    /// The greatest value, or i64's least number where there is none.
    Greatest(i64, u64),
    Count(u64),
    /// Whether some value is true.
    Any(bool, u64),
}

impl Total {
    /// The total of a combinator with a number, over so many values; None exactly where there is no
    /// such total.
    pub fn make(comb: Comb, number: i128, count: u64) -> Option<Total>
        ensures total { IfSome result (λ t. tally t
            ≡ record { comb = comb; number = number; count = count }) }
        ensures some { IfSome result (λ t. IsNumberOf comb number count) }
        ensures none { IfNone result (¬ (IsNumberOf comb number count)) }
    {
        match comb {
            Comb::Sum => Some(Total::Sum(number, count)),
            Comb::Min => Some(Total::Least(i64::try_from(number).ok()?, count)),
            Comb::Max => Some(Total::Greatest(i64::try_from(number).ok()?, count)),
            Comb::Count if number == i128::from(count) => Some(Total::Count(count)),
            Comb::Or if number == 0 => Some(Total::Any(false, count)),
            Comb::Or if number == 1 => Some(Total::Any(true, count)),
            _ => None,
        }
    }

    /// Its combinator, its number and how many values it joins.
    fn parts(self) -> (Comb, i128, u64)
        ensures comb { result.0 ≡ (tally self).comb }
        ensures number { result.1 ≡ (tally self).number }
        ensures count { result.2 ≡ (tally self).count }
        ensures possible { IsNumberOf result.0 result.1 result.2 }
    {
        match self {
            Total::Sum(n, k) => (Comb::Sum, n, k),
            Total::Least(n, k) => (Comb::Min, i128::from(n), k),
            Total::Greatest(n, k) => (Comb::Max, i128::from(n), k),
            Total::Count(k) => (Comb::Count, i128::from(k), k),
            Total::Any(b, k) => (Comb::Or, i128::from(b), k),
        }
    }

    /// How many values it joins.
    pub fn count(&self) -> u64
        ensures { result ≡ (tally self.now).count }
    {
        self.parts().2
    }
}

/// The total of a number that is there and that one of the combinator can have.
fn known(comb: Comb, number: Option<i128>, count: u64) -> Total
    requires { IsSomeAnd number (λ n. IsNumberOf comb n count) }
    ensures { IfSome number
        (λ n. tally result ≡ record { comb = comb; number = n; count = count }) }
{
    let Some(number) = number else { unreachable!() };
    let Some(total) = Total::make(comb, number, count) else {
        unreachable!()
    };
    total
}

/// The total of what two totals of one combinator join.
fn of_both(a: Total, b: Total) -> Total
    requires { CanJoin (tally a) (tally b) }
    ensures joined { tally result ≡ join (tally a) (tally b) }
    ensures from_identity { IsIdentity (tally a) → tally result ≡ tally b }
    ensures by_identity { IsIdentity (tally b) → tally result ≡ tally a }
    ensures bounded { IsBounded (tally result) }
{
    let (comb, number, count) = a.parts();
    let (_comb, more, others) = b.parts();
    known(comb, merged(comb, number, more), count + others)
}

impl Combine for Total {
    ghost seen = { tally };

    fn identity(comb: Comb) -> Total {
        known(comb, Some(identity(comb)), 0)
    }

    fn of(comb: Comb, v: Value) -> Total {
        known(comb, joined(comb, identity(comb), v), 1)
    }

    fn join(&mut self, other: &Total) {
        *self = of_both(*self, *other);
    }

    fn number(&self) -> i128 {
        self.parts().1
    }
}
