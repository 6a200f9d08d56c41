ghost use Rattle.std.specs.Prelude.{◌≡◌, ◌+◌, ◌<◌, ◌≤◌, ℕ, cond, is_some, IfNone, IfSome, OnSome};
ghost use Rattle.brace_core.specs.Exchanges.{Follows, IsAnswered, one_on};
ghost use Rattle.brace_lanes.specs.Seats.{IsLater, puts_of, takes_of, seen_of, misses_of};
ghost use Rattle.brace_lanes.specs.Views.{Serves};

use crate::lanes::Lanes;
use crate::seat::LaneSeat;
use brace_core::{Exchange, Freight, Name};

/// A seat with its lanes: what the actors that it serves put to and take from.
#[derive(Drop)]
pub struct LaneEnd<'a, F: Freight> {
    pub seat: LaneSeat<F>,
    pub lanes: &'a Lanes<F>,
}

impl<'a, F: Freight> Exchange<F> for LaneEnd<'a, F> {
    ghost use Rattle.std.specs.Prelude.{◌≡◌, ◌+◌, ◌≤◌};
    ghost use Rattle.std.proofs.Common.{rules};
    ghost use Rattle.brace_lanes.specs.Seats.{IsLater, puts_of, takes_of, misses_of};
    ghost use Rattle.brace_lanes.specs.Views.{Serves};

    ghost setting = { λ end. end.seat.view.setting };

    ghost serves = { λ end a. (end.seat.lanes ≡ end.lanes.now) × Serves end.seat.view a };

    ghost puts = { λ end. puts_of end.seat.view };

    ghost takes = { λ end. takes_of end.seat.view };

    ghost keeps = { λ x y. (y.lanes.now ≡ x.lanes.now) × IsLater x.seat y.seat };

    ghost misses = { λ x y name. misses_of x.seat.view name.from name.to + 1
        ≤ misses_of y.seat.view name.from name.to };

    fn put(&mut self, name: Name, piece: F)
        requires served { (self.old.seat.lanes ≡ self.old.lanes.now)
            × Serves self.old.seat.view name.from }
        requires next { Follows (F.schedule self.old.seat.view.setting)
            (puts_of self.old.seat.view) name }
        requires answered { IsAnswered (puts_of self.old.seat.view)
            (takes_of self.old.seat.view) name }
        requires right { F.right self.old.seat.view.setting name piece }
        ensures same { self.new.seat.view.setting ≡ self.old.seat.view.setting }
        ensures serving { (a : ℕ) →
            ((self.old.seat.lanes ≡ self.old.lanes.now) × Serves self.old.seat.view a) →
            ((self.new.seat.lanes ≡ self.new.lanes.now) × Serves self.new.seat.view a) }
        ensures put { (p q : ℕ) → puts_of self.new.seat.view p q
            ≡ puts_of self.old.seat.view p q + one_on name p q }
        ensures taken { (p q : ℕ) →
            takes_of self.new.seat.view p q ≡ takes_of self.old.seat.view p q }
        ensures misses { (p q : ℕ) →
            misses_of self.new.seat.view p q ≡ misses_of self.old.seat.view p q }
        ensures kept { (self.new.lanes.now ≡ self.old.lanes.now)
            × IsLater self.old.seat self.new.seat }
    {
        self.seat.put(self.lanes, name, piece);
    }

    fn take(&mut self, name: Name) -> Option<F>
        requires served { (self.old.seat.lanes ≡ self.old.lanes.now)
            × Serves self.old.seat.view name.to }
        requires next { Follows (F.schedule self.old.seat.view.setting)
            (takes_of self.old.seat.view) name }
        ensures same { self.new.seat.view.setting ≡ self.old.seat.view.setting }
        ensures serving { (a : ℕ) →
            ((self.old.seat.lanes ≡ self.old.lanes.now) × Serves self.old.seat.view a) →
            ((self.new.seat.lanes ≡ self.new.lanes.now) × Serves self.new.seat.view a) }
        ensures put { (p q : ℕ) → puts_of self.new.seat.view p q ≡ puts_of self.old.seat.view p q }
        ensures taken { (p q : ℕ) → takes_of self.new.seat.view p q
            ≡ takes_of self.old.seat.view p q + cond (is_some result) (one_on name p q) 0 }
        ensures right { IfSome result (λ piece. F.right self.old.seat.view.setting name piece) }
        ensures misses { (p q : ℕ) → misses_of self.new.seat.view p q
            ≡ misses_of self.old.seat.view p q + cond (is_some result) 0 (one_on name p q) }
        ensures found { OnSome result (takes_of self.old.seat.view name.from name.to
            < seen_of self.new.seat.view name.from name.to) }
        ensures missed { IfNone result (seen_of self.new.seat.view name.from name.to
            ≡ takes_of self.old.seat.view name.from name.to) }
        ensures kept { (self.new.lanes.now ≡ self.old.lanes.now)
            × IsLater self.old.seat self.new.seat }
        ensures found_none { IfNone result (misses_of self.old.seat.view name.from name.to + 1
            ≤ misses_of self.new.seat.view name.from name.to) }
    {
        self.seat.take(self.lanes, name)
    }

    ghost keeps_itself = { Prim.search rules };
}
