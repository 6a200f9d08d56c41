//! Facts on the check passes that hold always. The functions do nothing; their clauses are the
//! laws.
ghost use Rattle.std.specs.Prelude.{◌≡◌, ℕ, List, [], Some, flat_map, length};
ghost use Rattle.std.specs.List.{range_with_len};
ghost use Rattle.brace_check.specs.declared.fault.CheckFault.{CheckFault};
ghost use Rattle.brace_names.specs.declared.resolved.Resolved.{Resolved};
ghost use Rattle.brace_names.specs.Found.{found};
ghost use Rattle.brace_names.specs.Faults.{site_of};
ghost use Rattle.brace_check.specs.Resolved.{IsResolved};
ghost use Rattle.brace_check.specs.Order.{in_text_order};
ghost use Rattle.brace_check.specs.Checked.{IsChecked};
ghost use Rattle.brace_check.specs.Faults.{first, faults, IsFirst};
ghost use Rattle.brace_check.specs.Programs.{program_of};

/// The fault that is answered is of the earliest pass that has one, at the least offset in it; of
/// wrong types it is the one that is found first.
pub fn answers_are_first()
    ensures { (all : List CheckFault) (f : CheckFault) → first all ≡ Some f → IsFirst f all }
{}

/// Whatever the checks of names find in it, the program of a script in which these checks find
/// nothing has ranges from 0 to 1,000,000 units, combinators that fit, rules of the types of their
/// states, bool conditions of `die`, a number of its own for each constant of a class, and sites
/// that rise in finishing order.
pub fn accepted_programs_are_checked()
    ensures { (r : Resolved) → faults r ≡ [] → IsChecked (program_of r) }
{}

/// The sites that the checks of names count are those that the program has: the same places in the
/// same order.
pub fn counted_sites_are_numbered()
    ensures { (r : Resolved) → flat_map site_of (found r.tree) ≡ (program_of r).sites }
{}

/// The sites of the program of a script that is read from a source and resolved are numbered from 0
/// in turn over its classes, over their members and over their statements, in the order of the
/// text: in an expression each operation behind its operands, in a `spawn` its own site behind its
/// gifts.
pub fn sites_are_numbered_in_text_order()
    ensures { (src : List ℕ) (r : Resolved) → IsResolved src r
        → in_text_order r.tree.classes (program_of r).classes
        ≡ range_with_len 0 (length (program_of r).sites) }
{}
