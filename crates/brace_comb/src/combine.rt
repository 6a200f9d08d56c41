ghost use Rattle.std.specs.Prelude.{◌≡◌, IsTrue, List, [], ◌∷◌, ◌++◌};
ghost use Rattle.brace_model.specs.declared.program.Comb.{Comb};
ghost use Rattle.brace_model.specs.declared.program.Value.{Value};
ghost use Rattle.brace_comb.specs.Totals.{Tally, tally_of, join, accepts, IsIdentity, CanJoin, IsBounded};

use brace_model::{Comb, Value};

/// A total that grows by joining. No call takes memory.
pub trait Combine {
    /// What contracts see of a total: its combinator, its number and how many values it joins.
    ghost seen: { Self → Tally };

    /// The total of no value.
    fn identity(comb: Comb) -> Self
        ensures total { seen result ≡ tally_of comb [] }
        ensures bounded { IsBounded (seen result) };

    /// The total of one value, which the combinator accepts: a flag for `or`, any value for
    /// `count`, else a number.
    fn of(comb: Comb, v: Value) -> Self
        requires { IsTrue (accepts comb v) }
        ensures total { seen result ≡ tally_of comb (v ∷ []) }
        ensures bounded { IsBounded (seen result) };

    /// Joins another total of the same combinator to this one. A sum over n values is from -2^63 n
    /// to 2^63 n, and the two join at most 2^52 values, so that each sum fits 128 bits.
    fn join(&mut self, other: &Self)
        requires { CanJoin (seen self.old) (seen other.now) }
        ensures joined { seen self.new ≡ join (seen self.old) (seen other.now) }
        ensures total { (comb : Comb) (xs ys : List Value)
            → seen self.old ≡ tally_of comb xs → seen other.now ≡ tally_of comb ys
            → seen self.new ≡ tally_of comb (xs ++ ys) }
        ensures from_identity { IsIdentity (seen self.old) → seen self.new ≡ seen other.now }
        ensures by_identity { IsIdentity (seen other.now) → seen self.new ≡ seen self.old }
        ensures bounded { IsBounded (seen self.new) };

    /// The number of the total, as expressions read it: millionths of a fixed one, 0 or 1 of a
    /// flag, the count of `count`.
    fn number(&self) -> i128
        ensures { result ≡ (seen self.now).number };
}
