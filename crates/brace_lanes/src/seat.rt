ghost use Rattle.std.specs.Prelude.{◌≡◌, ◌+◌, ◌<◌, ℕ, [], cond, is_some, IfNone, IfOk, IfSome, OnOk, OnSome};
ghost use Rattle.brace_core.specs.Exchanges.{Follows, IsAnswered, one_on};
ghost use Rattle.brace_lanes.specs.Seats.{IsSameSeat, puts_of, takes_of, seen_of, misses_of};
ghost use Rattle.brace_lanes.specs.Views.{Serves, newcomer, splitting};

use crate::cargo::Cargo;
use crate::lanes::Lanes;
use crate::steps;
use crate::table::{Place, Way};
use brace_core::Name;
use brace_num::NoMemory;
use std::alloc::Global;
use std::marker::Model;

/// One of those that put to lanes and take from them, each for its actors, each on one thread.
#[derive(Drop)]
pub struct LaneSeat<F: Cargo> {
    pub(crate) place: Place<F>,
    pub(crate) actors: usize,
    pub(crate) put: Vec<u64>,
    pub(crate) taken: Vec<u64>,
}

impl<F: Cargo> Model for LaneSeat<F> {
    ghost use Rattle.brace_lanes.specs.Seats.{OnSeat};
    ghost use Rattle.brace_lanes.specs.inner.Sound.{IsSound};

    ghost Value = { OnSeat F.Setting };

    ghost view = { λ it. record { lanes = it.place.table_id; view = it.place.me.0 } };

    ghost invariant = { λ it. IsSound F.schedule it.place it.actors it.put.items it.taken.items };
}

impl<F: Cargo> LaneSeat<F> {
    /// One more seat, behind those that the first has made.
    pub(crate) fn split(&mut self, alloc: Global, lanes: &Lanes<F>) -> Result<LaneSeat<F>, NoMemory>
        requires lanes { self.old.lanes ≡ lanes.now }
        requires first { self.old.view.number ≡ 0 }
        ensures first { OnOk result
            (self.new ≡ record self.old { view = splitting self.old.view }) }
        ensures made { IfOk result (λ seat.
            seat ≡ record self.old { view = newcomer self.old.view }) }
    {
        let square = self.actors * self.actors;
        let put = vec![in alloc; 0; square]?;
        let taken = vec![in alloc; 0; square]?;
        Ok(LaneSeat {
            place: steps::split(&lanes.table, &mut self.place),
            actors: self.actors,
            put,
            taken,
        })
    }

    /// Puts the piece of a name, the next of its lane, where as many names were put on this lane
    /// as were taken from the opposite one. Its slot is empty, so this never waits. No memory is
    /// taken.
    pub fn put(&mut self, lanes: &Lanes<F>, name: Name, piece: F)
        requires lanes { self.old.lanes ≡ lanes.now }
        requires served { Serves self.old.view name.from }
        requires next { Follows (F.schedule self.old.view.setting) (puts_of self.old.view) name }
        requires answered { IsAnswered (puts_of self.old.view) (takes_of self.old.view) name }
        requires right { F.right self.old.view.setting name piece }
        ensures lanes { self.new.lanes ≡ self.old.lanes }
        ensures same { IsSameSeat self.old.view self.new.view }
        ensures put { (p q : ℕ) →
            puts_of self.new.view p q ≡ puts_of self.old.view p q + one_on name p q }
        ensures taken { (p q : ℕ) → takes_of self.new.view p q ≡ takes_of self.old.view p q }
        ensures misses { (p q : ℕ) → misses_of self.new.view p q ≡ misses_of self.old.view p q }
    {
        let own = name.from as usize;
        let other = name.to as usize;
        let way = Way {
            actors: self.actors,
            own,
            other,
        };
        let at = own * self.actors + other;
        let count = self.put[at];
        let slot = (count % 2) as usize * (self.actors * self.actors) + at;
        steps::claim(&lanes.table, &mut self.place, way);
        steps::fill(&lanes.table, &mut self.place, slot, piece);
        steps::store_put(&lanes.table, &mut self.place, way, count);
        self.put[at] = count + 1;
    }

    /// Takes the piece of a name, the next to be taken of its lane. None where the look of this
    /// call found no name put behind those that were taken. No memory is taken.
    pub fn take(&mut self, lanes: &Lanes<F>, name: Name) -> Option<F>
        requires lanes { self.old.lanes ≡ lanes.now }
        requires served { Serves self.old.view name.to }
        requires next { Follows (F.schedule self.old.view.setting) (takes_of self.old.view) name }
        ensures lanes { self.new.lanes ≡ self.old.lanes }
        ensures same { IsSameSeat self.old.view self.new.view }
        ensures put { (p q : ℕ) → puts_of self.new.view p q ≡ puts_of self.old.view p q }
        ensures taken { (p q : ℕ) → takes_of self.new.view p q
            ≡ takes_of self.old.view p q + cond (is_some result) (one_on name p q) 0 }
        ensures misses { (p q : ℕ) → misses_of self.new.view p q
            ≡ misses_of self.old.view p q + cond (is_some result) 0 (one_on name p q) }
        ensures right { IfSome result (λ piece. F.right self.old.view.setting name piece) }
        ensures found { OnSome result
            (takes_of self.old.view name.from name.to < seen_of self.new.view name.from name.to) }
        ensures missed { IfNone result
            (seen_of self.new.view name.from name.to ≡ takes_of self.old.view name.from name.to) }
    {
        let own = name.to as usize;
        let other = name.from as usize;
        let way = Way {
            actors: self.actors,
            own,
            other,
        };
        let at = own * self.actors + other;
        let count = self.taken[at];
        if steps::look(&lanes.table, &mut self.place, way) == count {
            return None;
        }
        let lane = other * self.actors + own;
        let slot = (count % 2) as usize * (self.actors * self.actors) + lane;
        let piece = steps::clear(&lanes.table, &mut self.place, slot);
        steps::store_taken(&lanes.table, &mut self.place, way, count);
        self.taken[at] = count + 1;
        piece
    }

    /// Gives the seat up. What it has put can still be taken. No memory is taken.
    pub fn close(self, lanes: &Lanes<F>)
        requires lanes { self.lanes ≡ lanes.now }
    {
        drop(self);
    }
}
