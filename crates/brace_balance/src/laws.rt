//! What a proof shows. The function does nothing; its clause is the law.
ghost use Rattle.std.specs.Prelude.{ℕ, ℤ, List, IsTrue};
ghost use Rattle.brace_balance.specs.declared.kinds.Proof.{Proof};
ghost use Rattle.brace_balance.specs.Loads.{accepts, NoneIsLower};

/// Where a proof of a load is accepted, all rising cuts into at most so many strips have that load
/// or a greater one.
pub fn accepted_loads_are_lowest()
    ensures lowest { (xs : List ℤ) (strips n : ℕ) (proof : Proof)
        → IsTrue (accepts xs strips n proof) → NoneIsLower xs strips n }
{}
