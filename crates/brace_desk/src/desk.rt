ghost use Rattle.std.specs.Prelude.{◌≡◌, ℕ, ◌+◌, nat_lt, map, IfOk, IfErr, Err, Some, None, true, false};
ghost use Rattle.std.specs.List.{range_with_len};
ghost use Rattle.std.specs.Vec.{vec_capacity};
ghost use Rattle.brace_io.specs.Counts.{Rose};
ghost use Rattle.brace_core.specs.declared.name.Name.{Name};
ghost use Rattle.brace_core.specs.declared.name.Turn.TheVariants as turn;
ghost use Rattle.brace_core.specs.Exchanges.{IsPut, IsTake};
ghost use Rattle.brace_pieces.specs.declared.piece.Cause.{Cause};
ghost use Rattle.brace_pieces.specs.declared.piece.Cause.TheVariants as cause;
ghost use Rattle.brace_pieces.specs.Settings.{LawfulSetting, parts, shown_ticks};
ghost use Rattle.brace_pieces.specs.Numbers.{NumbersFit};
ghost use Rattle.brace_pieces.specs.Right.{IsRight};
ghost use Rattle.brace_pieces.specs.Courses.{IsCourse, at_start, due_on, gone_on, past_of, turn_of};
ghost use Rattle.brace_desk.specs.declared.publisher.PubFault.{PubFault};
ghost use Rattle.brace_desk.specs.declared.publisher.PubFault.TheVariants as fault;
ghost use Rattle.brace_desk.specs.declared.desk.Stop.{Stop};
ghost use Rattle.brace_desk.specs.declared.desk.Stop.TheVariants as stop;
ghost use Rattle.brace_desk.specs.Calls.{Rises};
ghost use Rattle.brace_desk.specs.Refusals.{tick_of};
ghost use Rattle.brace_desk.specs.Desks.{fixed_of, stop_in, stop_of, put_by, stopped_by, lots_with, IsOwnStop, whole_at, ends_before, HasShown, HasHalted, HasRefused};
ghost use Rattle.brace_desk.specs.Lots.{tick_shown, brought};

use crate::join::joined;
use crate::{PubFault, Publisher};
use brace_core::{Actor, Turn};
use brace_num::{List, NoMemory};
use brace_pieces::{Cause, Course, Piece, Setting, Shown, Stage, Turns};
use std::alloc::Global;
use std::marker::Model;
use std::snapshot::Snapshot;

/// What a part brings where all is shown.
#[derive(Drop)]
pub struct Lot {
    pub part: u32,
    pub worlds: List<Shown>,
}

/// Why a desk publishes nothing any more.
#[derive(Clone, Copy, PartialEq, Eq, Drop)]
pub enum Stop {
    /// A part goes no further, or the desk or its publisher had no memory.
    Halt(Cause),
    /// The publisher refused.
    Refusal(PubFault),
}

/// The publisher of a run as an actor: where all is shown it takes the agents of each part, and the
/// publisher gets the whole worlds.
///
/// Contracts see where it stands in the schedule of its setting, what its publisher was when it was
/// made and what it is, why it publishes nothing any more, and what parts brought last.
#[derive(Drop)]
pub struct Desk<'a, P: Publisher> {
    alloc: Global,
    turns: Turns<'a>,
    opening: Snapshot<P>,
    publisher: P,
    /// Why its publisher refused.
    refusal: Option<PubFault>,
    /// The step that it stands in, or in which it stopped.
    since: u64,
    /// What came in that step.
    lots: Vec<Lot>,
    /// Whether it has put its Halt to all since it stopped.
    told: bool,
    /// Where it was asked for that last, and had not.
    untold: Snapshot<Course<'a>>,
}

impl<'a, P: Publisher> Model for Desk<'a, P> {
    ghost use Rattle.std.specs.Vec.{vec_capacity};
    ghost use Rattle.brace_desk.specs.Desks.{OnDesk};
    ghost use Rattle.brace_desk.specs.inner.Sound.{IsDesk};

    ghost Value = { OnDesk P };

    ghost use Rattle.std.specs.Coded.{codes};
    ghost use Rattle.brace_model.specs.contracts.program.Expr as expr;
    ghost use Rattle.brace_model.specs.contracts.program.Stmt as stmt;

    ghost coded = { Prim.hlevel (codes, expr.the_row.coded, stmt.the_row.coded) };

    ghost view = { λ d. record {
      course = d.turns.course;
      opening = d.opening.value;
      publisher = d.publisher;
      cause = d.turns.cause;
      refusal = d.refusal;
      since = d.since;
      lots = d.lots.items;
      told = d.told;
      untold = d.untold.value.number;
    } };

    ghost invariant = { λ d. IsDesk P.Publisher (record {
      untold = d.untold.value.number;
      told = d.told;
      lots = d.lots.items;
      since = d.since;
      refusal = d.refusal;
      cause = d.turns.cause;
      publisher = d.publisher;
      opening = d.opening.value;
      course = d.turns.course;
    }) (vec_capacity d.lots) };
}

/// Why a desk publishes nothing any more, by why its publisher refused and why it halted.
fn stop_in(refusal: Option<PubFault>, cause: Option<Cause>) -> Option<Stop>
    ensures { result ≡ stop_in refusal cause }
{
    match (refusal, cause) {
        (Some(fault), _) => Some(Stop::Refusal(fault)),
        (None, Some(cause)) => Some(Stop::Halt(cause)),
        (None, None) => None,
    }
}

impl<'a, P: Publisher> Desk<'a, P> {
    /// The desk of a lawful run, whose program the publisher fits, before its first turn; `Err`
    /// gives the publisher back where memory is refused.
    pub fn make(alloc: Global, setting: &'a Setting, publisher: P) -> Result<Desk<'a, P>, P>
        requires lawful { LawfulSetting setting.now }
        requires fits { P.fits publisher setting.now.job.program }
        ensures start { IfOk result (λ desk.
            desk.course ≡ at_start setting.now (parts setting.now)) }
        ensures opening { IfOk result (λ desk. desk.opening ≡ publisher) }
        ensures back { IfErr result (λ p. p ≡ publisher) }
    {
        setting.numbers_fit();
        let parts = setting.parts();
        let Ok(course) = Course::make(alloc, setting, parts) else {
            return Err(publisher);
        };
        let Ok(lots) = Vec::with_capacity(alloc, parts as usize) else {
            return Err(publisher);
        };
        Ok(Desk {
            alloc,
            untold: Snapshot::of(&course),
            turns: Turns {
                course,
                cause: None,
            },
            opening: Snapshot::of(&publisher),
            publisher,
            refusal: None,
            since: 0,
            lots,
            told: false,
        })
    }

    /// The publisher, which got all that was shown.
    pub fn into_publisher(self) -> P
        ensures same { result ≡ self.entry.publisher }
        ensures fits { P.fits result self.entry.course.setting.job.program }
    {
        let Desk { publisher, .. } = self;
        publisher
    }

    /// Why it publishes nothing any more. Where it goes on its publisher was shown all ends before
    /// the step that it stands in; where a part halted, all ends before that, as can be told
    /// between steps; where the publisher refused, all ends before that; and at any time the first
    /// ends, where it did not refuse.
    pub fn stop(&self) -> Option<Stop>
        ensures same { result ≡ stop_of self.now }
        ensures all { stop_of self.now ≡ None → HasShown P.Publisher self.now
            (ends_before self.now.course.setting self.now.course.number) }
        ensures halted { (c : Cause) → stop_of self.now ≡ Some (stop.Halt c)
            → self.now.course.made ≡ 0 → HasHalted P.Publisher self.now c }
        ensures refused { (x : PubFault) → stop_of self.now ≡ Some (stop.Refusal x)
            → HasRefused P.Publisher self.now x }
        ensures shown { ((x : PubFault) → stop_of self.now ≡ Some (stop.Refusal x) → ⊥)
            → (count : ℕ) × HasShown P.Publisher self.now count }
        ensures rises { Rises P.Publisher self.now.opening self.now.publisher }
        ensures told { self.now.told ≡ true → stop_of self.now ≡ None → ⊥ }
        ensures course { IsCourse self.now.course }
    {
        stop_in(self.refusal, self.turns.cause)
    }

    /// Whether its run ends here: it put its Halt to all, which is where a step in which all is
    /// shown was made since it stopped. Where it has not, it keeps in which step that was seen.
    pub fn ends_here(&mut self) -> bool
        ensures told { result ≡ self.old.told }
        ensures untold { result ≡ false
            → self.new ≡ record self.old { untold = self.old.course.number } }
        ensures same { result ≡ true → self.new ≡ self.old }
        ensures course { IsCourse self.old.course }
    {
        if !self.told {
            self.untold = Snapshot::of(&self.turns.course);
        }
        self.told
    }

    /// What came in the step in which the first part halted, by rising part: all that parts showed
    /// there, before its Halt and behind it.
    pub fn kept(&self) -> &[Lot]
        ensures { result.now ≡ self.now.lots }
    {
        self.lots.as_slice()
    }
}

/// Shows the publisher the whole worlds of an end, of which each part brought its agents.
fn publish<P: Publisher>(
    alloc: Global,
    setting: &Setting,
    end: u64,
    lots: &mut Vec<Lot>,
    publisher: &mut P,
) -> Result<(), Stop>
    requires lawful { LawfulSetting setting.now }
    requires numbers { NumbersFit setting.now }
    requires fits { P.fits publisher.old setting.now.job.program }
    requires brought { lots.old.items ≡ map (brought setting.now (tick_shown setting.now end)
        (shown_ticks setting.now end)) (range_with_len 0 (parts setting.now)) }
    ensures done { IfOk result (λ _. P.state publisher.new ≡ P.after (P.state publisher.old)
        setting.now end (map (whole_at setting.now) (shown_ticks setting.now end))) }
    ensures refused { (x : PubFault) → result ≡ Err (stop.Refusal x) →
        P.cut (P.state publisher.old) setting.now end
        (map (whole_at setting.now) (shown_ticks setting.now end)) x (P.state publisher.new) }
    ensures named { (x : PubFault) (k : ℕ) → result ≡ Err (stop.Refusal x) → tick_of x ≡ Some k
        → k ≡ end }
    ensures found_memory { (x : PubFault) → result ≡ Err (stop.Refusal x) → x ≡ fault.NoMemory → ⊥ }
    ensures halted { (c : Cause) → result ≡ Err (stop.Halt c)
        → (c ≡ cause.NoMemory) × (P.state publisher.new ≡ P.state publisher.old) }
    ensures written { result ≡ Err (stop.Refusal fault.Write)
        → Rose (P.writes publisher.old) (P.writes publisher.new) }
    ensures saved { (x : PubFault) (k : ℕ) → result ≡ Err (stop.Refusal x) → tick_of x ≡ Some k
        → Rose (P.saves publisher.old) (P.saves publisher.new) }
    ensures rises { Rises P.Publisher publisher.old publisher.new }
    ensures places { vec_capacity lots.new ≡ vec_capacity lots.old }
{
    let worlds = match joined(alloc, lots) {
        Ok(worlds) => worlds,
        Err(NoMemory) => return Err(Stop::Halt(Cause::NoMemory)),
    };
    match publisher.epoch(alloc, setting, end, &worlds) {
        Ok(()) => Ok(()),
        Err(PubFault::NoMemory) => Err(Stop::Halt(Cause::NoMemory)),
        Err(fault) => Err(Stop::Refusal(fault)),
    }
}

/// What a desk puts by why it publishes nothing any more.
fn put_by(stop: Option<Stop>) -> Piece
    ensures { result ≡ put_by stop }
{
    match stop {
        None => Piece::Ack,
        Some(Stop::Halt(Cause::Fault(fault))) => Piece::Halt(Cause::Fault(fault)),
        Some(Stop::Halt(Cause::NoMemory | Cause::Closed)) => Piece::Halt(Cause::NoMemory),
        Some(Stop::Refusal(_)) => Piece::Halt(Cause::Closed),
    }
}

impl<'a, P: Publisher> Actor<Piece> for Desk<'a, P> {
    ghost use Rattle.brace_pieces.specs.Courses.{past_of};

    type Opening = (P, u64);

    ghost setting = { λ desk. desk.course.setting };

    ghost number = { λ desk. desk.course.actor };

    ghost opening = { λ desk. (desk.opening, desk.untold) };

    ghost past = { λ desk. past_of desk.course };

    fn next(&self, end: u64) -> Turn {
        self.turns.course.turn_to(end)
    }

    fn piece(&mut self) -> Piece
        requires { IsPut (due_on self.old.course) }
        ensures right { (name : Name) → due_on self.old.course ≡ turn.Put name
            → IsRight self.old.course.setting name result }
        ensures goes_on { past_of self.new.course ≡ past_of self.old.course + 1 }
        ensures same_setting { self.new.course.setting ≡ self.old.course.setting }
        ensures same_number { self.new.course.actor ≡ self.old.course.actor }
        ensures same_opening { fixed_of self.new ≡ fixed_of self.old }
        ensures put { result ≡ put_by (stop_of self.old) }
        ensures same { self.new ≡ record self.old { course = gone_on self.old.course } }
    {
        self.turns.put();
        put_by(stop_in(self.refusal, self.turns.cause))
    }

    fn give(&mut self, piece: Piece)
        requires turn { IsTake (due_on self.old.course) }
        requires right { (name : Name) → due_on self.old.course ≡ turn.Take name
            → IsRight self.old.course.setting name piece }
        ensures goes_on { past_of self.new.course ≡ past_of self.old.course + 1 }
        ensures same_setting { self.new.course.setting ≡ self.old.course.setting }
        ensures same_number { self.new.course.actor ≡ self.old.course.actor }
        ensures same_opening { fixed_of self.new ≡ fixed_of self.old }
        ensures closed { nat_lt self.old.since self.old.course.number ≡ true
            → self.new ≡ record self.old { course = gone_on self.old.course } }
        ensures stop { stop_of self.new ≡ stopped_by (stop_of self.old) piece }
        ensures lots { (name : Name) → nat_lt self.old.since self.old.course.number ≡ false
            → turn_of self.old.course ≡ turn.Take name
            → self.new.lots ≡ lots_with self.old.lots name.from piece }
    {
        let turn = self.turns.course.turn();
        let number = self.turns.course.number();
        self.turns.take(&piece);
        if self.since < number {
            return;
        }
        if let (Piece::Show(worlds), Turn::Take(name)) = (piece, turn) {
            self.lots.push_reserved(Lot {
                part: name.from,
                worlds,
            });
        }
    }

    fn work(&mut self)
        requires { due_on self.old.course ≡ turn.Work }
        ensures goes_on { past_of self.new.course ≡ past_of self.old.course + 1 }
        ensures same_setting { self.new.course.setting ≡ self.old.course.setting }
        ensures same_number { self.new.course.actor ≡ self.old.course.actor }
        ensures same_opening { fixed_of self.new ≡ fixed_of self.old }
        ensures stays { (why : Stop) → stop_of self.old ≡ Some why → stop_of self.new ≡ Some why }
        ensures kept { (why : Stop) → stop_of self.old ≡ Some why → self.new.lots ≡ self.old.lots }
        ensures own { stop_of self.old ≡ None → IsOwnStop (stop_of self.new) }
    {
        let number = self.turns.course.number();
        let at = self.turns.work();
        let shows = at.stage == Stage::Show;
        match (stop_in(self.refusal, self.turns.cause), shows) {
            (Some(_), true) => self.told = self.since < number,
            (Some(_), false) => {}
            (None, true) => {
                let (course, lots) = (&self.turns.course, &mut self.lots);
                let publisher = &mut self.publisher;
                let shown = publish(self.alloc, course.setting(), at.tick, lots, publisher);
                self.lots.clear();
                match shown {
                    Ok(()) => self.since = self.turns.course.number(),
                    Err(Stop::Halt(cause)) => self.turns.cause = Some(cause),
                    Err(Stop::Refusal(fault)) => {
                        self.refusal = Some(fault);
                        self.turns.cause = Some(Cause::Closed);
                    }
                }
            }
            (None, false) => self.since = self.turns.course.number(),
        }
    }
}
