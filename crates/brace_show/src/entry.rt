ghost use Rattle.std.specs.Prelude.{◌≡◌, ◌++◌, ℕ, List, flat_map, IfOk, OnOk};
ghost use Rattle.brace_tok.specs.declared.kinds.Token.{Token};
ghost use Rattle.brace_tok.specs.Spells.{Spells};
ghost use Rattle.brace_syntax.specs.Reads.{Reads};
ghost use Rattle.brace_show.specs.Back.{ReadsBack};
ghost use Rattle.brace_show.specs.Canonical.{class_text, canonical};

use crate::class::append_class;
use brace_num::{List, NoMemory};
use brace_syntax::{ClassTree, Tree};
use std::alloc::Global;

/// The canonical text of a script: one text for each tree, apart from the places that it records.
///
/// A tree that was read from the tokens of some source is read back from its text, apart from
/// places.
pub fn show(alloc: Global, tree: &Tree) -> Result<Vec<u8>, NoMemory>
    ensures text { IfOk result (λ out. out.items ≡ canonical tree.now) }
    ensures reads_back { IfOk result (λ out. (src : List ℕ) (toks : List Token)
        → Spells src toks → Reads src toks tree.now → ReadsBack out.items tree.now) }
{
    let mut out = Vec::new(alloc);
    append_classes(alloc, &mut out, &tree.classes)?;
    Ok(out)
}

fn append_classes(
    alloc: Global,
    out: &mut Vec<u8>,
    classes: &List<ClassTree>,
) -> Result<(), NoMemory>
    ensures printed { OnOk result (out.new.items ≡
        out.old.items ++ flat_map class_text classes.now) }
{
    for class in classes.as_slice() {
        append_class(alloc, out, class)?;
    }
    Ok(())
}
