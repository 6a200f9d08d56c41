//! Facts on the layout of scripts that hold always. The functions do nothing; their clauses are the
//! laws.
ghost use Rattle.std.specs.Prelude.{◌≡◌, ℕ, [], List, map};
ghost use Rattle.brace_syntax.specs.declared.tree.Tree.{Tree};
ghost use Rattle.brace_show.specs.Alike.{Alike};
ghost use Rattle.brace_show.specs.Canonical.{canonical};
ghost use Rattle.brace_names.specs.declared.resolved.Resolved.{Resolved};
ghost use Rattle.brace_names.specs.Faults.{faults as name_faults};
ghost use Rattle.brace_check.specs.Resolved.{IsResolved};
ghost use Rattle.brace_check.specs.Faults.{faults as check_faults};
ghost use Rattle.brace_check.specs.Programs.{program_of};
ghost use Rattle.brace_layout.specs.Formatted.{IsFormatted};
ghost use Rattle.brace_layout.specs.Unplaced.{name_fault_at_0, targets_in};
ghost use Rattle.brace_layout.specs.Unplaced.{check_fault_at_0, program_at_0};

/// Scripts that are the same apart from places have the same faults of names apart from places, so
/// one has none where the other has none; and their names stand for the same, in the same order.
pub fn alike_scripts_have_the_same_names()
    ensures faults { (tree other : Tree) → Alike tree other
        → map name_fault_at_0 (name_faults tree) ≡ map name_fault_at_0 (name_faults other) }
    ensures faultless { (tree other : Tree) → Alike tree other
        → name_faults tree ≡ [] → name_faults other ≡ [] }
    ensures targets { (tree other : Tree) → Alike tree other → targets_in tree ≡ targets_in other }
{}

/// Scripts that are the same apart from places have the same faults of the check passes apart from
/// places, so nothing is found in one where nothing is found in the other; and the same program
/// apart from offsets.
pub fn alike_scripts_mean_the_same()
    ensures faults { (r q : Resolved) → Alike r.tree q.tree
        → map check_fault_at_0 (check_faults r) ≡ map check_fault_at_0 (check_faults q) }
    ensures faultless { (r q : Resolved) → Alike r.tree q.tree
        → check_faults r ≡ [] → check_faults q ≡ [] }
    ensures programs { (r q : Resolved) → Alike r.tree q.tree
        → program_at_0 (program_of r) ≡ program_at_0 (program_of q) }
{}

/// The canonical text of a script that is resolved is resolved too, as the same script apart from
/// places. Where nothing is found in the script, nothing is found in what its canonical text is
/// resolved as; and its program is the same apart from offsets.
pub fn canonical_texts_mean_the_same()
    ensures resolved { (src : List ℕ) (r : Resolved) → IsResolved src r → IsFormatted r }
    ensures faultless { (src : List ℕ) (r q : Resolved)
        → IsResolved src r → IsResolved (canonical r.tree) q
        → check_faults r ≡ [] → check_faults q ≡ [] }
    ensures programs { (src : List ℕ) (r q : Resolved)
        → IsResolved src r → IsResolved (canonical r.tree) q
        → program_at_0 (program_of q) ≡ program_at_0 (program_of r) }
{}
