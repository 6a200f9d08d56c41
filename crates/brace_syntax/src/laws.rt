//! Facts on the grammar that hold always. The functions do nothing; their clauses are the laws.
ghost use Rattle.std.specs.Prelude.{◌≡◌, ℕ, List};
ghost use Rattle.brace_tok.specs.declared.kinds.Token.{Token};
ghost use Rattle.brace_syntax.specs.Reads.{Reads};
ghost use Rattle.brace_syntax.specs.Refusals.{IsPlace};
ghost use Rattle.brace_syntax.specs.declared.tree.Tree.{Tree};

/// A list of tokens is at most one script.
pub fn readings_are_unique()
    ensures { (src : List ℕ) (toks : List Token) (a b : Tree)
        → Reads src toks a → Reads src toks b → a ≡ b }
{}

/// The place of a list of tokens that is no script is at most one.
pub fn places_are_unique()
    ensures { (src : List ℕ) (toks : List Token) (a b : ℕ)
        → IsPlace src toks a → IsPlace src toks b → a ≡ b }
{}
