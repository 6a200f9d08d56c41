//! Facts on differences of texts that hold always. The function does nothing; its clauses are the
//! laws.
ghost use Rattle.std.specs.Prelude.{◌≡◌, ◌≢◌, ◌+◌, ◌↔◌, ℕ, List, Some, None, take, flat_map};
ghost use Rattle.brace_audit.specs.Differs.{lines, differs};

/// A text is its lines, one behind another. Two texts differ in no line exactly where they are
/// equal. Else the lines before the one that is named are the same in both, and that line is
/// another, or one of both lacks it.
pub fn differs_in_the_first_other_line()
    ensures whole { (a : List ℕ) → flat_map (λ line. line) (lines a) ≡ a }
    ensures equal { (a b : List ℕ) → differs a b ≡ None ↔ a ≡ b }
    ensures numbered { (a b : List ℕ) → differs a b ≢ Some 0 }
    ensures before { (a b : List ℕ) (n : ℕ) → differs a b ≡ Some (n + 1)
        → take n (lines a) ≡ take n (lines b) }
    ensures first { (a b : List ℕ) (n : ℕ) → differs a b ≡ Some (n + 1)
        → take (n + 1) (lines a) ≢ take (n + 1) (lines b) }
{}
