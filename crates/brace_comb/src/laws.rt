//! Facts on totals, and on what they are joined to, that hold always. The functions do nothing;
//! their clauses are the laws.
ghost use Rattle.std.specs.Prelude.{◌≡◌, ◌≤◌, ◌^◌, ℕ, List, [], ◌∷◌, ◌++◌, length, map};
ghost use Rattle.std.specs.Int.{w64};
ghost use Rattle.std.specs.Int.RustNames.{FitsSigned};
ghost use Rattle.std.specs.List.{All};
ghost use Rattle.std.specs.List.Sorted.{IsPermutation};
ghost use Rattle.brace_model.specs.declared.program.Comb.{Comb};
ghost use Rattle.brace_model.specs.declared.program.Value.{Value};
ghost use Rattle.brace_model.specs.World.{number};
ghost use Rattle.brace_model.specs.Query.{Saying};
ghost use Rattle.brace_model.specs.Total.{total_of, said_to};
ghost use Rattle.brace_comb.specs.declared.entry.Entry.{Entry};
ghost use Rattle.brace_comb.specs.declared.total.Total.{Total};
ghost use Rattle.brace_comb.specs.Totals.{Tally, tally, tally_of, join, IsBounded};
ghost use Rattle.brace_comb.specs.Folds.{IsFold};
ghost use Rattle.brace_comb.specs.Entries.{CanMerge, AreOf};
ghost use Rattle.brace_comb.specs.Partials.{IsPartialOf, AreTotalsOf, sayings_to};

/// Totals of one combinator may be joined in any grouping and any order.
pub fn joins_are_regrouped()
    ensures associative { (a b c : Tally) → a.comb ≡ b.comb → b.comb ≡ c.comb
        → join (join a b) c ≡ join a (join b c) }
    ensures commutative { (a b : Tally) → a.comb ≡ b.comb → join a b ≡ join b a }
{}

/// In whatever order and grouping the totals of values are joined, the result is the total of the
/// values, and its number is the one that the meaning of scripts gives them.
pub fn folds_give_the_total()
    ensures total { (comb : Comb) (values : List Value) (t : Tally)
        → IsFold comb values t → t ≡ tally_of comb values }
    ensures number { (comb : Comb) (values : List Value) (t : Tally)
        → IsFold comb values t → t.number ≡ total_of comb values }
    ensures any_order { (comb : Comb) (xs ys : List Value)
        → IsPermutation xs ys → tally_of comb xs ≡ tally_of comb ys }
{}

/// The total of values of 64 bits is bounded, as `join` asks.
pub fn totals_are_bounded()
    ensures bounded { (comb : Comb) (values : List Value)
        → All (λ v. FitsSigned w64 (number v)) values → IsBounded (tally_of comb values) }
{}

/// A total is known by what is seen of it.
pub fn totals_are_as_seen()
    ensures seen { (a b : Total) → tally a ≡ tally b → a ≡ b }
{}

/// All that is given comes to one list of entries alone, in whatever order and grouping it is
/// given, where the totals of each effect are of one combinator.
pub fn givings_are_regrouped()
    ensures one { (given a b : List Entry) → IsPartialOf given a → IsPartialOf given b → a ≡ b }
    ensures any_order { (combs : ℕ → ℕ → Comb) (xs ys a b : List Entry) → AreOf combs xs
        → IsPermutation xs ys → IsPartialOf xs a → IsPartialOf ys b → a ≡ b }
    ensures either_way { (combs : ℕ → ℕ → Comb) (xs ys a b : List Entry)
        → AreOf combs xs → AreOf combs ys
        → IsPartialOf (xs ++ ys) a → IsPartialOf (ys ++ xs) b → a ≡ b }
    ensures grouped { (combs : ℕ → ℕ → Comb) (xs ys part entries : List Entry)
        → AreOf combs xs → AreOf combs ys → IsPartialOf ys part
        → IsPartialOf (xs ++ part) entries → IsPartialOf (xs ++ ys) entries }
{}

/// The totals of values said come to one list of entries alone, in whatever order they are said;
/// each entry has the total of all values said to its effect.
pub fn sayings_are_totalled()
    ensures one { (combs : ℕ → ℕ → Comb) (said : List Saying) (a b : List Entry)
        → AreTotalsOf combs said a → AreTotalsOf combs said b → a ≡ b }
    ensures any_order { (combs : ℕ → ℕ → Comb) (xs ys : List Saying) (a b : List Entry)
        → IsPermutation xs ys → AreTotalsOf combs xs a → AreTotalsOf combs ys b → a ≡ b }
    ensures each { (combs : ℕ → ℕ → Comb) (said : List Saying) (entries : List Entry)
        → AreTotalsOf combs said entries → All (λ e. tally e.total
        ≡ tally_of (combs e.target e.field) (said_to e.target e.field said)) entries }
    ensures alone { (combs : ℕ → ℕ → Comb) (e : Entry) (v : Value) (values : List Value)
        → tally e.total ≡ tally_of (combs e.target e.field) (v ∷ values)
        → AreTotalsOf combs (sayings_to e.target e.field (v ∷ values)) (e ∷ []) }
{}

/// Totals of values of 64 bits may be merged where at most 2^52 values are said to each effect.
pub fn totals_may_be_merged()
    ensures joins { (combs : ℕ → ℕ → Comb) (xs ys : List Saying) (a b : List Entry)
        → AreTotalsOf combs xs a → AreTotalsOf combs ys b
        → All (λ s. FitsSigned w64 (number s.value)) (xs ++ ys)
        → ((t f : ℕ) → length (said_to t f (xs ++ ys)) ≤ 2 ^ 52) → CanMerge a b }
{}
