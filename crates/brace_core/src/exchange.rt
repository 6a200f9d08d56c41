ghost use Rattle.std.specs.Prelude.{◌≡◌, ◌+◌, ℕ, cond, is_some, IfNone, IfSome};
ghost use Rattle.brace_core.specs.Exchanges.{Follows, IsAnswered, one_on};

use crate::{Freight, Name};

/// Where actors put pieces for one another and take them, each by its name.
pub trait Exchange<F: Freight> {
    ghost use Rattle.std.specs.Prelude.{ℕ};
    ghost use Rattle.brace_core.specs.declared.name.Name.{Name};

    /// The setting that it was made for.
    ghost setting: { Self → F.Setting };

    /// Whether it serves an actor.
    ghost serves: { Self → ℕ → Type 0 };

    /// How many names it put on the lane from an actor to another.
    ghost puts: { Self → ℕ → ℕ → ℕ };

    /// How many names it took from the lane from an actor to another.
    ghost takes: { Self → ℕ → ℕ → ℕ };

    /// What every call keeps, from before it to behind it.
    ghost keeps: { Self → Self → Type 0 };

    /// What a take of a name tells that found nothing, from before it to behind it.
    ghost misses: { Self → Self → Name → Type 0 };

    /// Puts the piece of a name, the next of its lane, where as many names were put on this lane as
    /// were taken from the opposite lane.
    fn put(&mut self, name: Name, piece: F)
        requires served { serves self.old name.from }
        requires next { Follows (F.schedule (setting self.old)) (puts self.old) name }
        requires answered { IsAnswered (puts self.old) (takes self.old) name }
        requires right { F.right (setting self.old) name piece }
        ensures same { setting self.new ≡ setting self.old }
        ensures serving { (a : ℕ) → serves self.old a → serves self.new a }
        ensures put { (p q : ℕ) → puts self.new p q ≡ puts self.old p q + one_on name p q }
        ensures taken { (p q : ℕ) → takes self.new p q ≡ takes self.old p q }
        ensures kept { keeps self.old self.new };

    /// Takes the piece of a name, the next to be taken of its lane; None changes nothing.
    fn take(&mut self, name: Name) -> Option<F>
        requires served { serves self.old name.to }
        requires next { Follows (F.schedule (setting self.old)) (takes self.old) name }
        ensures same { setting self.new ≡ setting self.old }
        ensures serving { (a : ℕ) → serves self.old a → serves self.new a }
        ensures put { (p q : ℕ) → puts self.new p q ≡ puts self.old p q }
        ensures taken { (p q : ℕ) →
            takes self.new p q ≡ takes self.old p q + cond (is_some result) (one_on name p q) 0 }
        ensures right { IfSome result (λ piece. F.right (setting self.old) name piece) }
        ensures kept { keeps self.old self.new }
        ensures found_none { IfNone result (misses self.old self.new name) };

    /// A call that changes nothing keeps this.
    ghost keeps_itself: { (x : Self) → keeps x x };
}
