//! Facts on the checks of names that hold always. The functions do nothing; their clauses are the
//! laws.
ghost use Rattle.std.specs.Prelude.{◌≡◌, List, Some};
ghost use Rattle.brace_names.specs.declared.fault.NameFault.{NameFault};
ghost use Rattle.brace_names.specs.Faults.{first, IsFirst};

/// The fault that is answered is of the earliest pass that has one, at the least offset in it; of
/// two at one offset it is the one that is found first.
pub fn answers_are_first()
    ensures { (all : List NameFault) (f : NameFault) → first all ≡ Some f → IsFirst f all }
{}
