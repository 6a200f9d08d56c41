//! Facts on canonical texts that hold always. The functions do nothing; their clauses are the laws.
ghost use Rattle.std.specs.Prelude.{◌≡◌, ℕ, List};
ghost use Rattle.brace_tok.specs.declared.kinds.Token.{Token};
ghost use Rattle.brace_tok.specs.Spells.{Spells};
ghost use Rattle.brace_syntax.specs.declared.tree.Tree.{Tree};
ghost use Rattle.brace_syntax.specs.Depth.{NowhereDeep};
ghost use Rattle.brace_syntax.specs.Reads.{Reads};
ghost use Rattle.brace_show.specs.Alike.{Alike};
ghost use Rattle.brace_show.specs.Canonical.{canonical};
ghost use Rattle.brace_show.specs.Back.{ReadsBack};

/// A script that is read from some text is read back from its canonical text, apart from places.
pub fn canonical_texts_are_read_back()
    ensures { (src : List ℕ) (toks : List Token) (tree : Tree)
        → Spells src toks → Reads src toks tree → ReadsBack (canonical tree) tree }
{}

/// Scripts that are the same apart from places have one canonical text.
pub fn alike_scripts_have_one_text()
    ensures { (tree other : Tree) → Alike tree other → canonical tree ≡ canonical other }
{}

/// Whatever script the canonical text of a script is read as has that same text.
pub fn canonical_texts_stay()
    ensures { (src : List ℕ) (toks : List Token) (tree : Tree)
        → Spells src toks → Reads src toks tree → (again : List Token) (back : Tree)
        → Spells (canonical tree) again → Reads (canonical tree) again back
        → canonical back ≡ canonical tree }
{}

/// The tokens of the canonical text of a script are nowhere too deep where those that the script
/// was read from are not. So no canonical text of a script that the parser took is refused for
/// depth.
pub fn canonical_texts_are_no_deeper()
    ensures { (src : List ℕ) (toks : List Token) (tree : Tree)
        → Spells src toks → Reads src toks tree → NowhereDeep toks
        → (again : List Token) → Spells (canonical tree) again → NowhereDeep again }
{}
