ghost use Rattle.std.specs.Prelude.{◌≡◌, ◌≤◌, ℕ, length, map, true, false};
ghost use Rattle.std.specs.List.{All};
ghost use Rattle.brace_lanes.specs.Seats.{IsLater};
ghost use Rattle.brace_pieces.specs.declared.setting.Setting.{Setting};
ghost use Rattle.brace_pieces.specs.Steps.{steps};
ghost use Rattle.brace_crew.specs.declared.bench.Drive.TheVariants as drive;
ghost use Rattle.brace_crew.specs.Members.{course_of, opening_of, HasTold, IsAt, IsWithin, WasUntold};
ghost use Rattle.brace_crew.specs.Benches.{AreServed, IsUnused, IsUsedTo, IsSameBench, AreWaiting};
ghost use Rattle.brace_crew.specs.inner.Crews.{HaveDeskLast};
ghost use Rattle.brace_crew.specs.inner.Teams.{HasCome, StaysWithin};
ghost use Rattle.brace_crew.specs.inner.Driven.{AreCounted, AreSame, WentAll, both};

use crate::Member;
use crate::crew::end_here;
use crate::crowd::Crowd;
use brace_core::{Actor, Turn, Went, make_turn};
use brace_desk::Publisher;
use brace_io::Gate;
use brace_lanes::{LaneEnd, LaneSeat};
use brace_pieces::Piece;
use std::marker::Model;
use std::sync::Wait;
use std::thread;
use std::thread::Parker;
use std::time::Duration;

/// In how many rounds, one behind the other, no member of a bench may make a turn before it naps.
/// They last longer than most waits of an exchange, and many of these are shorter than a nap.
const PATIENCE: u64 = 16_384;

/// The same where no bench is awake: there it soon leaves, so that others have its thread.
const PATIENCE_ALONE: u64 = 128;

/// How long a nap lasts, in microseconds: many rounds, and yet short, since nobody ends it.
const NAP: u64 = 100;

/// How often the first bench naps until another one begins: longer than a thread takes to start.
const NAPS: u64 = 256;

/// What driving a bench came to.
#[derive(Clone, Copy, PartialEq, Eq, Drop)]
pub enum Drive {
    /// All members are Done.
    Complete,
    /// Each member that is not Done waits for a name that was not put for so long.
    Dry,
}

/// The members of a crew that one worker serves, with their seat at the lanes.
#[derive(Drop)]
pub struct Bench<'a, P: Publisher> {
    members: Vec<Member<'a, P>>,
    end: LaneEnd<'a, Piece>,
    number: usize,
}

impl<'a, P: Publisher> Model for Bench<'a, P> {
    ghost use Rattle.brace_crew.specs.Benches.{OnBench};
    ghost use Rattle.brace_crew.specs.inner.Driven.{IsBench};

    ghost Value = { OnBench P };

    ghost use Rattle.std.specs.Coded.{codes};
    ghost use Rattle.brace_model.specs.contracts.program.Expr as expr;
    ghost use Rattle.brace_model.specs.contracts.program.Stmt as stmt;

    ghost coded = { Prim.hlevel (codes, expr.the_row.coded, stmt.the_row.coded) };

    ghost view = { λ b. record {
      number = b.number;
      members = b.members.items;
      lanes = b.end.seat.lanes;
      seat = b.end.seat.view;
    } };

    ghost invariant = { λ b. IsBench b.end.lanes.now (record {
      number = b.number;
      members = b.members.items;
      lanes = b.end.seat.lanes;
      seat = b.end.seat.view;
    }) };
}

impl<'a, P: Publisher> Bench<'a, P> {
    /// The bench of a worker's number. The seat of `end` is the one of this number at its lanes,
    /// and nothing was put or taken through it. The members are all those that it serves, by rising
    /// number, each of the setting of the lanes and before its first turn. No memory is taken.
    pub fn make(members: Vec<Member<'a, P>>, end: LaneEnd<'a, Piece>, number: usize) -> Bench<'a, P>
        requires at_lanes { end.seat.lanes ≡ end.lanes.now }
        requires number_is { end.seat.view.number ≡ number }
        requires unused { IsUnused end.seat.view }
        requires served { AreServed end.seat.view members.items }
        ensures number { result.number ≡ number }
        ensures members { result.members ≡ members.entry.items }
        ensures lanes { result.lanes ≡ end.entry.seat.lanes }
        ensures seat { result.seat ≡ end.entry.seat.view }
        ensures start { HasCome 0 result }
    {
        Bench {
            members,
            end,
            number,
        }
    }

    /// Lets each member make its turns in the first steps of the run, so many, round by round,
    /// until all are Done there, or until in so many rounds one behind the other no member made a
    /// turn. Before a part evaluates the query of a tick the gate is passed with the worker's
    /// number and that tick; before a work of the desk it is not. No memory is taken but by the
    /// members' works. What is said of the members' and of the seat's end holds where no member was
    /// behind it before.
    pub fn drive<G: Gate>(&mut self, gate: &G, patience: u64, steps: u64) -> Drive
        requires some_patience { 1 ≤ patience }
        ensures same { IsSameBench self.old self.new }
        ensures within { All (IsWithin steps) self.old.members
            → All (IsWithin steps) self.new.members }
        ensures done { result ≡ drive.Complete → All (IsWithin steps) self.old.members
            → All (IsAt steps) self.new.members }
        ensures used_to { result ≡ drive.Complete → All (IsWithin steps) self.old.members
            → IsUsedTo steps self.new.seat }
        ensures dry { result ≡ drive.Dry → AreWaiting steps self.old.seat self.new.seat patience
            self.new.members }
    {
        let (members, end) = (&mut self.members, &mut self.end);
        drive_members(members, end, gate, self.number, patience, steps)
    }

    /// Drives it through the first steps of the run, so many, as one of a crowd, until all members
    /// are Done there or no other can help it on. The first one waits until another begins; where
    /// none does, nobody can.
    pub(crate) fn drive_among<R: Wait, G: Gate>(
        &mut self,
        rt: &R,
        gate: &G,
        crowd: &Crowd,
        steps: u64,
    )
        ensures same { IsSameBench self.old self.new }
        ensures within { StaysWithin steps self.old → StaysWithin steps self.new }
    {
        let first = crowd.begin();
        self.drive(gate, 1, steps);
        if first {
            await_another(rt, crowd);
        }
        crowd.sleep();
        if crowd.has_met() {
            self.go_along(rt, gate, crowd, steps);
        }
    }

    /// Drives it again and again, until all members are Done, or until nobody was awake before a
    /// nap and behind it.
    fn go_along<R: Wait, G: Gate>(&mut self, rt: &R, gate: &G, crowd: &Crowd, steps: u64)
        ensures same { IsSameBench self.old self.new }
        ensures within { StaysWithin steps self.old → StaysWithin steps self.new }
    {
        let mut idle = 0u64;
        for _ in rt.forever() {
            let alone = idle >= PATIENCE_ALONE && !crowd.is_awake();
            if alone || idle >= PATIENCE {
                nap(rt);
            } else {
                thread::yield_now();
            }
            match self.go_on(gate, crowd, steps) {
                Went::On => idle = 0,
                Went::Nowhere if !alone || crowd.is_awake() => idle = idle.saturating_add(1),
                _ => return,
            }
        }
    }

    /// Lets each member make its next turn, if it can, and drives the bench on where one could. It
    /// wakes behind these turns: where all members waited they are takes, and no work.
    fn go_on<G: Gate>(&mut self, gate: &G, crowd: &Crowd, steps: u64) -> Went
        ensures same { IsSameBench self.old self.new }
        ensures within { StaysWithin steps self.old → StaysWithin steps self.new }
    {
        let went = self.round(gate, steps);
        if went == Went::On {
            crowd.wake();
            self.drive(gate, 1, steps);
            crowd.sleep();
        }
        went
    }

    /// Lets each member make its next turn, if it can.
    fn round<G: Gate>(&mut self, gate: &G, steps: u64) -> Went
        ensures same { IsSameBench self.old self.new }
        ensures within { StaysWithin steps self.old → StaysWithin steps self.new }
    {
        let (members, end) = (&mut self.members, &mut self.end);
        make_turns(members, end, gate, self.number, steps)
    }

    /// Whether all members are Done in the first steps of the run, so many.
    pub(crate) fn is_complete(&self, steps: u64) -> bool
        ensures { result ≡ true → StaysWithin steps self.now → HasCome steps self.now }
    {
        for member in self.members.as_slice() {
            if member.next(steps) != Turn::Done {
                return false;
            }
        }
        true
    }

    /// Whether the run may end here: no member is a desk that is still to put its Halt to all.
    pub(crate) fn ends_here(&mut self) -> bool
        requires desk_last { HaveDeskLast self.old.members }
        ensures told { result ≡ true → All HasTold self.new.members }
        ensures untold { result ≡ false → (s : Setting) (n : ℕ) → n ≤ length (steps s)
            → All (λ m. (course_of m).setting ≡ s) self.old.members
            → All (IsAt n) self.old.members → All (WasUntold s n) self.new.members }
        ensures same { result ≡ true → self.new ≡ self.old }
        ensures courses { map course_of self.new.members ≡ map course_of self.old.members }
        ensures openings { map opening_of self.new.members ≡ map opening_of self.old.members }
        ensures lanes { self.new.lanes ≡ self.old.lanes }
        ensures seat { self.new.seat ≡ self.old.seat }
    {
        end_here(&mut self.members)
    }

    /// The members, by rising number, and their seat.
    pub fn into_members(self) -> (Vec<Member<'a, P>>, LaneSeat<Piece>)
        ensures members { result.0.items ≡ self.entry.members }
        ensures lanes { result.1.lanes ≡ self.entry.lanes }
        ensures seat { result.1.view ≡ self.entry.seat }
    {
        let Bench { members, end, .. } = self;
        let LaneEnd { seat, .. } = end;
        (members, seat)
    }
}

/// Naps until another bench of a crowd begins, if one does.
fn await_another<R: Wait>(rt: &R, crowd: &Crowd) {
    for _ in 0..NAPS {
        if crowd.has_met() {
            return;
        }
        nap(rt);
    }
}

/// Gives the processor away for a while.
fn nap<R: Wait>(rt: &R) {
    Parker::new().park_timeout(rt, Duration::from_micros(NAP));
}

/// Lets each member make its next turn in the first steps, so many, if it can, and before the query
/// of a tick passes the gate. They went on where one of them did; they are over where all are.
fn make_turns<P: Publisher, G: Gate>(
    members: &mut [Member<P>],
    end: &mut LaneEnd<Piece>,
    gate: &G,
    bench: usize,
    steps: u64,
) -> Went
    requires at_lanes { end.old.seat.lanes ≡ end.old.lanes.now }
    requires counted { AreCounted end.old.seat.view members.old }
    ensures went { WentAll steps end.old.seat.view members.old end.new.seat.view members.new
        (length members.old) result }
    ensures within { All (IsWithin steps) members.old → All (IsWithin steps) members.new }
    ensures counted { AreCounted end.new.seat.view members.new }
    ensures same { AreSame members.old members.new }
    ensures later { IsLater end.old.seat end.new.seat }
    ensures lanes { end.new.lanes.now ≡ end.old.lanes.now }
{
    let mut all = Went::Over;
    for i in 0..members.len() {
        if let Some(tick) = members[i].query_tick() {
            gate.pass(bench, tick);
        }
        let one = make_turn(&mut members[i], end, steps);
        all = behind(all, one);
    }
    all
}

/// How members went on with one more.
fn behind(all: Went, one: Went) -> Went
    ensures { result ≡ both all one }
{
    match (all, one) {
        (Went::On, _) | (_, Went::On) => Went::On,
        (Went::Over, Went::Over) => Went::Over,
        _ => Went::Nowhere,
    }
}

/// Drives members until all are Done in the first steps, so many, or until so many rounds led
/// nowhere, one behind the other.
fn drive_members<P: Publisher, G: Gate>(
    members: &mut [Member<P>],
    end: &mut LaneEnd<Piece>,
    gate: &G,
    bench: usize,
    patience: u64,
    steps: u64,
) -> Drive
    requires at_lanes { end.old.seat.lanes ≡ end.old.lanes.now }
    requires counted { AreCounted end.old.seat.view members.old }
    requires some_patience { 1 ≤ patience }
    ensures within { All (IsWithin steps) members.old → All (IsWithin steps) members.new }
    ensures done { result ≡ drive.Complete → All (IsWithin steps) members.old
        → All (IsAt steps) members.new }
    ensures used_to { result ≡ drive.Complete → All (IsWithin steps) members.old
        → IsUsedTo steps end.new.seat.view }
    ensures dry { result ≡ drive.Dry → AreWaiting steps end.old.seat.view end.new.seat.view
        patience members.new }
    ensures counted { AreCounted end.new.seat.view members.new }
    ensures same { AreSame members.old members.new }
    ensures later { IsLater end.old.seat end.new.seat }
    ensures lanes { end.new.lanes.now ≡ end.old.lanes.now }
{
    let mut idle = 0;
    while idle < patience {
        match make_turns(members, end, gate, bench, steps) {
            Went::On => idle = 0,
            Went::Nowhere => idle += 1,
            Went::Over => return Drive::Complete,
        }
    }
    Drive::Dry
}
