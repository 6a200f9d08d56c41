ghost use Rattle.std.specs.Prelude.{◌≡◌, ◌+◌, ◌^◌, ◌≤◌, ℕ, List, cond, is_some, nat_lt, false, length, IfOk, IfNone, IfSome, OnSome};
ghost use Rattle.brace_core.specs.declared.name.Name.{Name};
ghost use Rattle.brace_core.specs.declared.name.Turn.TheVariants.{Put, Take};
ghost use Rattle.brace_core.specs.Events.{is_ready};
ghost use Rattle.brace_core.specs.Exchanges.{Follows, IsAnswered, one_on};
ghost use Rattle.brace_core.specs.Lanes.{puts_of, takes_of, AreBelow, AreInFlight, MakesTurn};

use crate::lane::Lane;
use crate::{Exchange, Freight, Name};
use brace_num::NoMemory;
use std::alloc::Global;
use std::marker::Model;
use std::snapshot::Snapshot;

/// The lanes between all actors, in plain memory.
#[derive(Drop)]
pub struct PlainLanes<F: Freight> {
    setting: Snapshot<F::Setting>,
    actors: usize,
    lanes: Vec<Lane<F>>,
}

impl<F: Freight> Model for PlainLanes<F> {
    ghost use Rattle.brace_core.specs.Lanes.{OnLanes};
    ghost use Rattle.brace_core.specs.inner.Sound.{IsSound};

    ghost Value = { OnLanes F F.Setting };

    ghost view = { λ it. record {
      setting = it.setting.value;
      actors = it.actors;
      lanes = it.lanes.items;
    } };

    ghost invariant = { λ it. IsSound F.schedule F.right (record {
      setting = it.setting.value;
      actors = it.actors;
      lanes = it.lanes.items;
    }) };
}

impl<F: Freight> PlainLanes<F> {
    /// Lanes for a setting, on which nothing was put. The number of actors is at most 65 and above
    /// every number in the names of the setting's schedule, which has at most 2^40 steps.
    pub fn make(alloc: Global, setting: &F::Setting, actors: u32) -> Result<PlainLanes<F>, NoMemory>
        requires few { actors ≤ 65 }
        requires below { AreBelow (F.schedule setting.now) actors }
        requires short { length (F.schedule setting.now).steps ≤ 2 ^ 40 }
        ensures setting { IfOk result (λ lanes. lanes.setting ≡ setting.now) }
        ensures actors { IfOk result (λ lanes. lanes.actors ≡ actors) }
        ensures nothing_put { IfOk result (λ lanes. (p q : ℕ) → puts_of lanes p q ≡ 0) }
    {
        let actors = actors as usize;
        let mut lanes = Vec::with_capacity(alloc, actors * actors)?;
        for _ in 0..actors * actors {
            lanes.push(Lane::new())?;
        }
        Ok(PlainLanes {
            setting: Snapshot::of(setting),
            actors,
            lanes,
        })
    }

    /// How many actors these lanes are for.
    pub fn actors(&self) -> usize
        ensures count { result ≡ self.now.actors }
        ensures few { result ≤ 65 }
    {
        self.actors
    }

    /// Whether a piece is in flight on the name's lane.
    pub(crate) fn holds(&self, name: Name) -> bool
        ensures { result ≡ nat_lt
            (takes_of self.now name.from name.to) (puts_of self.now name.from name.to) }
    {
        let at = name.from as usize * self.actors + name.to as usize;
        (name.to as usize) < self.actors && self.lanes.get(at).is_some_and(|lane| !lane.is_empty())
    }
}

impl<F: Freight> Exchange<F> for PlainLanes<F> {
    ghost use Rattle.std.specs.Prelude.{◌≡◌, nat_lt, false, refl};
    ghost use Rattle.brace_core.specs.Lanes.{puts_of, takes_of};

    ghost setting = { λ lanes. lanes.setting };

    ghost serves = { λ lanes a. Unit {0} };

    ghost puts = { puts_of };

    ghost takes = { takes_of };

    ghost keeps = { λ v w. w.actors ≡ v.actors };

    ghost misses = { λ v w name. nat_lt
        (takes_of v name.from name.to) (puts_of v name.from name.to) ≡ false };

    fn put(&mut self, name: Name, piece: F)
        requires next { Follows (F.schedule self.old.setting) (puts_of self.old) name }
        requires answered { IsAnswered (puts_of self.old) (takes_of self.old) name }
        requires right { F.right self.old.setting name piece }
        ensures same { self.new.setting ≡ self.old.setting }
        ensures actors { self.new.actors ≡ self.old.actors }
        ensures put { (p q : ℕ) → puts_of self.new p q ≡ puts_of self.old p q + one_on name p q }
        ensures taken { (p q : ℕ) → takes_of self.new p q ≡ takes_of self.old p q }
        ensures event { MakesTurn (F.schedule self.old.setting) self.old self.new (Put name) }
    {
        let at = name.from as usize * self.actors + name.to as usize;
        self.lanes[at].put(piece);
    }

    fn take(&mut self, name: Name) -> Option<F>
        requires next { Follows (F.schedule self.old.setting) (takes_of self.old) name }
        ensures same { self.new.setting ≡ self.old.setting }
        ensures actors { self.new.actors ≡ self.old.actors }
        ensures put { (p q : ℕ) → puts_of self.new p q ≡ puts_of self.old p q }
        ensures taken { (p q : ℕ) → takes_of self.new p q
            ≡ takes_of self.old p q + cond (is_some result) (one_on name p q) 0 }
        ensures right { IfSome result (λ piece. F.right self.old.setting name piece) }
        ensures found { (flight : List Name) →
            AreInFlight (F.schedule self.old.setting) self.old flight →
            is_some result ≡ is_ready flight (Take name) }
        ensures event { OnSome result
            (MakesTurn (F.schedule self.old.setting) self.old self.new (Take name)) }
        ensures counted { is_some result ≡ nat_lt
            (takes_of self.old name.from name.to) (puts_of self.old name.from name.to) }
        ensures found_none { IfNone result (nat_lt
            (takes_of self.old name.from name.to) (puts_of self.old name.from name.to) ≡ false) }
    {
        let at = name.from as usize * self.actors + name.to as usize;
        self.lanes[at].take()
    }

    ghost keeps_itself = { λ v. refl };
}
