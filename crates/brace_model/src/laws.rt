//! Facts on faults that hold always. The functions do nothing; their clauses are the laws.
ghost use Rattle.std.specs.Prelude.{◌≡◌, ◌↔◌, List, [], false, IsTrue, Some, None};
ghost use Rattle.std.specs.List.{All, Contains};
ghost use Rattle.std.specs.List.Sorted.{IsPermutation};
ghost use Rattle.brace_model.specs.declared.fault.Fault.{Fault};
ghost use Rattle.brace_model.specs.FaultOrder.{comes_before, least};

/// No fault comes before itself, faults that come before one another do so in turn, and of two
/// different faults one comes before the other.
pub fn fault_order_is_total()
    ensures itself { (a : Fault) → comes_before a a ≡ false }
    ensures in_turn { (a b c : Fault) → IsTrue (comes_before a b) → IsTrue (comes_before b c)
        → IsTrue (comes_before a c) }
    ensures one_of_two { (a b : Fault) → comes_before a b ≡ false → comes_before b a ≡ false
        → a ≡ b }
{}

/// The least of some faults is the one among them that none of them comes before, and there is one
/// unless there is no fault. So it is the same in whatever order they are listed.
pub fn least_is_least()
    ensures least { (faults : List Fault) (f : Fault)
        → least faults ≡ Some f
        ↔ (Contains faults f × All (λ g. comes_before g f ≡ false) faults) }
    ensures none { (faults : List Fault) → least faults ≡ None ↔ faults ≡ [] }
    ensures any_order { (faults others : List Fault) → IsPermutation faults others
        → least faults ≡ least others }
{}
