ghost use Rattle.std.specs.Prelude.{◌≡◌, ◌+◌, ◌-◌, ◌^◌, ◌<◌, ◌≤◌, min, ℕ, List, cond, is_some, length, nat_lt, not, slice_get, IfOk, IfSome, IfNone, IsTrue, OnOk, OnErr, Some, false, map, take, drop, ◌++◌};
ghost use Rattle.std.specs.List.{list_any};
ghost use Rattle.brace_core.specs.Exchanges.{Follows, IsAnswered, one_on};
ghost use Rattle.brace_core.specs.Lanes.{AreBelow};
ghost use Rattle.brace_model.specs.declared.program.Ty.{Ty};
ghost use Rattle.brace_pieces.specs.Right.{IsRight};
ghost use Rattle.brace_pieces.specs.Steps.{schedule};
ghost use Rattle.brace_wire.specs.Links.{OnLink, fresh, link_of, puts_on, takes_on, received_on, after_round};
ghost use Rattle.brace_wire.specs.Shown.{HasBytes, is_lost, GoOn, GoOnWith};
ghost use Rattle.brace_wire.specs.Hope.{all_hope};
ghost use Rattle.brace_wire.specs.inner.Standing.{CanRound};

use crate::Fate;
use crate::carrier::Carrier;
use crate::link::Link;
use brace_core::{Exchange, Name};
use brace_num::NoMemory;
use brace_pieces::{Piece, Setting};
use std::alloc::Global;
use std::marker::Model;
use std::snapshot::Snapshot;

/// The lanes between all actors, over links that lose, repeat and reorder what they carry. Each
/// piece goes as bytes. Rounds send what was put until it is received.
#[derive(Drop)]
pub struct WireLanes {
    alloc: Global,
    setting: Snapshot<Setting>,
    actors: usize,
    fates: Vec<Fate>,
    rounds: u64,
    carrier: Carrier,
    links: Vec<Link>,
}

impl Model for WireLanes {
    ghost use Rattle.brace_wire.specs.Links.{OnLinks};
    ghost use Rattle.brace_wire.specs.inner.Standing.{IsSound};

    ghost Value = { OnLinks };

    ghost use Rattle.std.specs.Coded.{codes};
    ghost use Rattle.brace_model.specs.contracts.program.Expr as expr;
    ghost use Rattle.brace_model.specs.contracts.program.Stmt as stmt;

    ghost coded = { Prim.hlevel (codes, expr.the_row.coded, stmt.the_row.coded) };

    ghost view = { λ it. record {
      setting = it.setting.value;
      actors = it.actors;
      fates = it.fates.items;
      rounds = it.rounds;
      links = it.links.items;
    } };

    ghost invariant = { λ it. IsSound (record {
      setting = it.setting.value;
      actors = it.actors;
      fates = it.fates.items;
      rounds = it.rounds;
      links = it.links.items;
    }) it.carrier.decoder.types };
}

impl WireLanes {
    /// Lanes for a setting, on which nothing was put. The number of actors is at most 65 and above
    /// every number in the names of the setting's schedule, which has at most 2^40 steps. Every
    /// right piece of the setting is of its program's classes. The n-th sending of a piece, from 0,
    /// has the fate of number n modulo their count; one of them is other than a loss.
    pub fn make(
        alloc: Global,
        setting: &Setting,
        actors: u32,
        fates: Vec<Fate>,
    ) -> Result<WireLanes, NoMemory>
        requires few { actors ≤ 65 }
        requires below { AreBelow (schedule setting.now) actors }
        requires short { length (schedule setting.now).steps ≤ 2 ^ 40 }
        requires has_bytes { HasBytes setting.now }
        requires delivers { IsTrue (list_any (λ fate. not (is_lost fate)) fates.items) }
        ensures setting { IfOk result (λ lanes. lanes.setting ≡ setting.now) }
        ensures actors { IfOk result (λ lanes. lanes.actors ≡ actors) }
        ensures fates { IfOk result (λ lanes. lanes.fates ≡ fates.items) }
        ensures rounds { IfOk result (λ lanes. lanes.rounds ≡ 0) }
        ensures fresh { IfOk result (λ lanes. (p q : ℕ) → link_of lanes p q ≡ fresh) }
    {
        let actors = actors as usize;
        let carrier = Carrier::make(alloc, &setting.job.program)?;
        let mut links = Vec::with_capacity(alloc, actors * actors)?;
        for _ in 0..actors * actors {
            links.push(Link::new(alloc))?;
        }
        Ok(WireLanes {
            alloc,
            setting: Snapshot::of(setting),
            actors,
            fates,
            rounds: 0,
            carrier,
            links,
        })
    }

    /// How many actors these lanes are for. On no lane more was received than was put.
    pub fn actors(&self) -> usize
        ensures count { result ≡ self.now.actors }
        ensures few { result ≤ 65 }
        ensures received { (p q : ℕ) → received_on self.now p q ≤ puts_on self.now p q }
    {
        self.actors
    }

    /// How many rounds were made. The count stands still at its type's end.
    pub fn rounds(&self) -> u64
        ensures { result ≡ self.now.rounds }
    {
        self.rounds
    }

    /// Makes a round: on each lane, by its first actor and then its second, the pieces that the
    /// sender keeps are sent once, the older first, and what came late in the round before is
    /// handed over. A round that finds no memory is given up: it was made on some lanes and not on
    /// the others, and is not counted.
    pub fn round(&mut self) -> Result<(), NoMemory>
        ensures setting { self.new.setting ≡ self.old.setting }
        ensures actors { self.new.actors ≡ self.old.actors }
        ensures fates { self.new.fates ≡ self.old.fates }
        ensures put { (p q : ℕ) → puts_on self.new p q ≡ puts_on self.old p q }
        ensures taken { (p q : ℕ) → takes_on self.new p q ≡ takes_on self.old p q }
        ensures events { GoOn self.old self.new }
        ensures made { OnOk result ((p q : ℕ) → link_of self.new p q
            ≡ after_round self.old.fates (link_of self.old p q)) }
        ensures counted { OnOk result (
            self.new.rounds ≡ min (self.old.rounds + 1) (2 ^ 64 - 1)) }
        ensures not_counted { OnErr result (self.new.rounds ≡ self.old.rounds) }
        ensures nearer { OnOk result (0 < all_hope self.old
            → all_hope self.new < all_hope self.old) }
    {
        round_all(
            self.alloc,
            self.fates.as_slice(),
            &mut self.carrier,
            &mut self.links,
        )?;
        self.rounds = self.rounds.saturating_add(1);
        Ok(())
    }

    /// Whether a piece was received on the name's lane that was not taken.
    pub(crate) fn holds(&self, name: Name) -> bool
        ensures { result ≡ nat_lt
            (takes_on self.now name.from name.to) (received_on self.now name.from name.to) }
    {
        let to = name.to as usize;
        if self.actors <= to {
            return false;
        }
        match self.links.get(name.from as usize * self.actors + to) {
            Some(link) => link.holds(),
            None => false,
        }
    }

    /// Whether all that was put on any lane was received.
    pub(crate) fn is_quiet(&self) -> bool
        ensures quiet { IsTrue result
            → (p q : ℕ) → puts_on self.now p q ≡ received_on self.now p q }
        ensures hope { result ≡ false → 0 < all_hope self.now }
    {
        for link in &self.links {
            if !link.is_quiet() {
                return false;
            }
        }
        true
    }
}

/// Makes a round on links one after another, up to the first that finds no memory.
fn round_all(
    alloc: Global,
    fates: &[Fate],
    carrier: &mut Carrier,
    links: &mut Vec<Link>,
) -> Result<(), NoMemory>
    requires some { 0 < length fates.now }
    requires can { (i : ℕ) (link : OnLink) → slice_get links.old.items i ≡ Some link
        → CanRound carrier.old.decoder.types link }
    requires short { (i : ℕ) (link : OnLink) → slice_get links.old.items i ≡ Some link
        → link.receiver.taken + 2 < 2 ^ 64 }
    ensures made { OnOk result (links.new.items ≡ map (after_round fates.now) links.old.items) }
    ensures some_made { (made : ℕ) × (links.new.items
        ≡ map (after_round fates.now) (take made links.old.items) ++ drop made links.old.items) }
    ensures types { carrier.new.decoder.types ≡ carrier.old.decoder.types }
{
    for i in 0..links.len() {
        links[i].round(alloc, fates, carrier)?;
    }
    Ok(())
}

impl Exchange<Piece> for WireLanes {
    ghost use Rattle.brace_wire.specs.Links.{puts_on, takes_on, received_on};
    ghost use Rattle.std.proofs.Common.{arith, rules};
    ghost use Rattle.brace_wire.specs.Keeps.{Keeps};

    ghost setting = { λ lanes. lanes.setting };

    ghost serves = { λ lanes a. Unit {0} };

    ghost puts = { puts_on };

    ghost takes = { takes_on };

    ghost keeps = { Keeps };

    ghost misses = { λ v w name.
        takes_on v name.from name.to ≡ received_on v name.from name.to };

    fn put(&mut self, name: Name, piece: Piece)
        requires next { Follows (schedule self.old.setting) (puts_on self.old) name }
        requires answered { IsAnswered (puts_on self.old) (takes_on self.old) name }
        requires right { IsRight self.old.setting name piece }
        ensures same { self.new.setting ≡ self.old.setting }
        ensures put { (p q : ℕ) → puts_on self.new p q ≡ puts_on self.old p q + one_on name p q }
        ensures taken { (p q : ℕ) → takes_on self.new p q ≡ takes_on self.old p q }
        ensures kept { Keeps self.old self.new }
        ensures events { GoOnWith name piece self.old self.new }
    {
        let at = name.from as usize * self.actors + name.to as usize;
        self.links[at].put(name, piece);
    }

    fn take(&mut self, name: Name) -> Option<Piece>
        requires next { Follows (schedule self.old.setting) (takes_on self.old) name }
        ensures same { self.new.setting ≡ self.old.setting }
        ensures put { (p q : ℕ) → puts_on self.new p q ≡ puts_on self.old p q }
        ensures taken { (p q : ℕ) → takes_on self.new p q
            ≡ takes_on self.old p q + cond (is_some result) (one_on name p q) 0 }
        ensures right { IfSome result (λ piece. IsRight self.old.setting name piece) }
        ensures kept { Keeps self.old self.new }
        ensures found_none { IfNone result
            (takes_on self.old name.from name.to ≡ received_on self.old name.from name.to) }
        ensures oldest { result
            ≡ slice_get (link_of self.old name.from name.to).receiver.waiting 0 }
        ensures events { GoOn self.old self.new }
    {
        let at = name.from as usize * self.actors + name.to as usize;
        self.links[at].take()
    }

    ghost keeps_itself = { Prim.search (arith, rules) };
}
