ghost use Rattle.std.specs.Prelude.{◌≡◌, ◌⊎◌, ◌+◌, ◌^◌, ◌<◌, ◌≤◌, ◌++◌, [], ◌∷◌, Some, None, true, false, is_none, IsTrue, IfSome, IfOk, IfErr, if◌then◌else◌, ◌||◌, ◌%◌, ◌==◌, ℕ};
ghost use Rattle.std.specs.List.{list_all};
ghost use Rattle.std.specs.Vec.{vec_capacity};
ghost use Rattle.brace_core.specs.declared.name.Name.{Name};
ghost use Rattle.brace_core.specs.declared.name.Turn.TheVariants as turn;
ghost use Rattle.brace_core.specs.Exchanges.{IsPut, IsTake};
ghost use Rattle.brace_fold.specs.Listed.{AreListed};
ghost use Rattle.brace_model.specs.FaultOrder.{least};
ghost use Rattle.brace_model.specs.Lawful.{is_lawful_agent};
ghost use Rattle.brace_pieces.specs.declared.setting.Stage.TheVariants as stage;
ghost use Rattle.brace_pieces.specs.declared.setting.Step.{Step};
ghost use Rattle.brace_pieces.specs.declared.piece.Cause.{Cause};
ghost use Rattle.brace_pieces.specs.declared.piece.Cause.TheVariants as cause;
ghost use Rattle.brace_pieces.specs.declared.piece.Piece.TheVariants as piece;
ghost use Rattle.brace_pieces.specs.Settings.{LawfulSetting, parts, is_end, cuts_of};
ghost use Rattle.brace_pieces.specs.Right.{IsRight, IsRightCause};
ghost use Rattle.brace_pieces.specs.Courses.{OnCourse, IsCourse, at_start, due_on, step_of, gone_on, past_of};
ghost use Rattle.brace_pieces.specs.Turns.{cause_behind};
ghost use Rattle.brace_herd.specs.Works.{own_under, found_in_work, IsCauseOf, cause_of};
ghost use Rattle.brace_part.specs.Parts.{own_at, IsSettled, keeps_at, IsCauseOfAll, asks_next, brings_at, StillShows};
ghost use Rattle.brace_pieces.specs.Given.{counts_up_to};
ghost use Rattle.brace_part.specs.inner.Ready.{AreKept, next_behind};
ghost use Rattle.brace_herd.specs.Workers.{IsPartOf};
ghost use Rattle.brace_part.specs.inner.Sound.{IsAtWork, ComesTo, GoesOn, owns_in};

use crate::standing::Standing;
use brace_core::{Actor, Turn};
use brace_fold::{Moved, Redo};
use brace_herd::{Queries, Stance, Worker, listed, packed, prepared, prepared_show};
use brace_model::{Agent, Herd, Program};
use brace_num::{List, NoMemory};
use brace_pieces::{Cause, Counts, Course, Piece, Setting, Shown, Stage, Step, Turns};
use std::alloc::Global;
use std::marker::Model;
use std::mem;

/// A part of the plane. Contracts see where it stands in the schedule of its setting, the agents
/// that it owns there, what it keeps to be shown, why it goes no further, and how much it gave.
#[derive(Drop)]
pub struct Part<'a> {
    alloc: Global,
    turns: Turns<'a>,
    queries: Queries,
    standing: Standing,
}

impl<'a> Model for Part<'a> {
    ghost use Rattle.std.specs.Vec.{vec_capacity};
    ghost use Rattle.brace_part.specs.Parts.{OnPart};
    ghost use Rattle.brace_part.specs.inner.Sound.{IsSound, owns_in};

    ghost Value = { OnPart };

    ghost use Rattle.std.specs.Coded.{codes};
    ghost use Rattle.brace_model.specs.contracts.program.Expr as expr;
    ghost use Rattle.brace_model.specs.contracts.program.Stmt as stmt;

    ghost coded = { Prim.hlevel (codes, expr.the_row.coded, stmt.the_row.coded) };

    ghost view = { λ p. record {
      course = p.turns.course;
      owns = owns_in p.turns.course.setting.job.program p.standing.stance;
      shown = p.standing.shown;
      cause = p.turns.cause;
      counts = p.standing.counts;
    } };

    ghost invariant = { λ p. IsSound p.turns p.queries p.standing
        (vec_capacity p.standing.taken) };
}

/// Whether the world of a tick is shown.
fn is_shown(setting: &Setting, tick: u64) -> bool
    ensures { result ≡ (is_end setting.now tick || (tick % setting.now.job.every == 0)) }
{
    setting.is_end(tick) || tick.is_multiple_of(setting.job.every)
}

/// Keeps a part's agents of the first tick, where they are shown.
fn keep(
    setting: &Setting,
    tick: u64,
    agents: Herd,
    next: u64,
    shown: &mut List<Shown>,
) -> Result<(), NoMemory>
    ensures noted { IfOk result (λ _. shown.new ≡ shown.old
        ++ (if is_end setting.now tick || (tick % setting.now.job.every == 0)
        then record { tick = tick; agents = agents; next = next } ∷ []
        else [])) }
{
    if is_shown(setting, tick) {
        shown.push(Shown { tick, agents, next })?;
    }
    Ok(())
}

/// Keeps a part's agents of a tick, where they are shown.
fn note(
    alloc: Global,
    setting: &Setting,
    tick: u64,
    stance: &Stance,
    next: u64,
    shown: &mut List<Shown>,
) -> Result<(), NoMemory>
    ensures noted { IfOk result (λ _. shown.new ≡ shown.old
        ++ (if is_end setting.now tick || (tick % setting.now.job.every == 0)
        then record {
          tick = tick;
          agents = owns_in setting.now.job.program stance.now;
          next = next;
        } ∷ []
        else [])) }
    ensures kept { IfErr result (λ _. shown.new ≡ shown.old) }
{
    if is_shown(setting, tick) {
        let agents = herd_in(alloc, &setting.job.program, stance)?;
        shown.push(Shown { tick, agents, next })?;
    }
    Ok(())
}

/// Keeps a part's agents of the next tick behind a move, where they are shown.
fn note_next(
    alloc: Global,
    setting: &Setting,
    at: Step,
    stance: &Stance,
    next: u64,
    shown: &mut List<Shown>,
) -> Result<(), NoMemory>
    requires tick { at.tick ≤ 2 ^ 32 }
    ensures moved { at.stage ≡ stage.Move → IfOk result (λ _. shown.new ≡ shown.old
        ++ (if is_end setting.now (at.tick + 1) || ((at.tick + 1) % setting.now.job.every == 0)
        then record {
          tick = at.tick + 1;
          agents = owns_in setting.now.job.program stance.now;
          next = next;
        } ∷ []
        else [])) }
    ensures stays { (at.stage ≡ stage.Move → ⊥) → shown.new ≡ shown.old }
    ensures kept { IfErr result (λ _. shown.new ≡ shown.old) }
{
    if at.stage == Stage::Move {
        note(alloc, setting, at.tick + 1, stance, next, shown)?;
    }
    Ok(())
}

/// The next free id of the tick of a part's next step, by what it has before its work.
fn next_behind(at: Step, stance: &Stance, old: u64) -> u64
    ensures { result ≡ next_behind at.stage stance.now old }
{
    match (at.stage, stance) {
        (Stage::Move, Stance::Leaves(_, _, next)) => *next,
        _ => old,
    }
}

/// The agents that a part owns, by rising id; none between the query of a tick and the move.
fn herd_in(alloc: Global, program: &Program, stance: &Stance) -> Result<Herd, NoMemory>
    ensures { IfOk result (λ herd. herd ≡ owns_in program.now stance.now) }
{
    match stance {
        Stance::Owns(own) => packed(alloc, program, own),
        Stance::Hears(_, _) | Stance::Holds(_) | Stance::Leaves(_, _, _) => Ok(Herd::new(alloc)),
    }
}

/// Agents in columns, from which they can be read.
fn in_columns(alloc: Global, program: &Program, agents: &Herd) -> Result<Moved, NoMemory>
    requires { IsTrue (list_all (is_lawful_agent program.now) agents.now) }
    ensures { IfOk result (AreListed program.now agents.now) }
{
    match listed(alloc, program, agents) {
        Ok(rows) => Ok(rows),
        Err(Redo) => Err(NoMemory),
    }
}

/// What a part has while it is at its work: nothing.
fn nothing(alloc: Global) -> Stance {
    Stance::Owns(Moved {
        classes: Vec::new(alloc),
        ids: Vec::new(alloc),
        states: Vec::new(alloc),
    })
}

/// Prepares what a part puts in its next step, in which it made no turn.
fn prepare(
    alloc: Global,
    course: &Course,
    queries: &Queries,
    standing: &mut Standing,
) -> Result<(), NoMemory>
    requires part { IsPartOf course.now.setting course.now.actor queries.now }
    requires start { course.now.made ≡ 0 }
    requires comes { ComesTo course.now.setting course.now.actor course.now.number
        (step_of course.now) standing.old }
    requires nothing_taken { standing.old.taken.items ≡ [] }
    ensures goes_on { IfOk result (λ _. GoesOn course.now standing.new) }
    ensures kept { AreKept course.now.setting course.now.actor standing.old.shown
        → AreKept course.now.setting course.now.actor standing.new.shown }
    ensures still { IfErr result (λ _. standing.new.shown
        ≡ brings_at course.now.setting course.now.actor (step_of course.now)) }
    ensures taken { standing.new.taken ≡ standing.old.taken }
{
    standing.out.clear();
    let Some(at) = course.step() else {
        return Ok(());
    };
    if at.stage == Stage::Show {
        standing.out = prepared_show(alloc, &mut standing.shown)?;
        return Ok(());
    }
    let worker = Worker {
        alloc,
        setting: course.setting(),
        part: course.actor(),
        queries,
        number: course.number(),
        next: standing.next,
    };
    let counts = &mut standing.counts;
    standing.out = prepared(&worker, at, &standing.stance, course.others(), counts)?;
    Ok(())
}

/// Works in the step of a number, and prepares the next one, in which the course stands.
fn advance(
    alloc: Global,
    course: &Course,
    queries: &Queries,
    number: u64,
    at: Step,
    standing: &mut Standing,
) -> Result<(), Cause>
    requires part { IsPartOf course.now.setting course.now.actor queries.now }
    requires behind { course.now.number ≡ number + 1 }
    requires start { course.now.made ≡ 0 }
    requires work { IsAtWork course.now.setting course.now.actor number at standing.old }
    requires kept { AreKept course.now.setting course.now.actor standing.old.shown }
    ensures goes_on { IfOk result (λ _. GoesOn course.now standing.new) }
    ensures passes { IfOk result (λ _. least (found_in_work course.now.setting course.now.actor
        at.stage at.tick) ≡ None) }
    ensures faulted { IfErr result (IsCauseOf (found_in_work course.now.setting
        course.now.actor at.stage at.tick)) }
    ensures kept { AreKept course.now.setting course.now.actor standing.new.shown }
    ensures still { IfErr result (λ _. (standing.new.shown ≡ standing.old.shown)
        ⊎ (standing.new.shown
        ≡ brings_at course.now.setting course.now.actor (step_of course.now))) }
    ensures places { vec_capacity standing.new.taken ≡ vec_capacity standing.old.taken }
{
    let worker = Worker {
        alloc,
        setting: course.setting(),
        part: course.actor(),
        queries,
        number,
        next: standing.next,
    };
    standing.next = next_behind(at, &standing.stance, standing.next);
    let stance = mem::replace(&mut standing.stance, nothing(alloc));
    standing.stance = worker.worked(at, stance, &mut standing.taken)?;
    let (stance, shown) = (&standing.stance, &mut standing.shown);
    note_next(alloc, course.setting(), at, stance, standing.next, shown)?;
    standing.taken.clear();
    prepare(alloc, course, queries, standing)?;
    Ok(())
}

impl<'a> Part<'a> {
    /// The part of a number in a lawful setting, before its first turn. `owned` are its agents of
    /// the start world, by rising id. Behind this call nothing but its works takes memory; where
    /// one of them finds none, the part goes no further.
    pub fn make(
        alloc: Global,
        setting: &'a Setting,
        p: u32,
        owned: Herd,
    ) -> Result<Part<'a>, NoMemory>
        requires lawful { LawfulSetting setting.now }
        requires is_part { p < parts setting.now }
        requires owns { owned ≡ own_under setting.now p
            (cuts_of setting.now setting.now.job.first) setting.now.job.first }
        ensures start { IfOk result (λ part. part.course ≡ at_start setting.now p) }
        ensures goes_on { IfOk result (λ part. part.cause ≡ None) }
    {
        setting.numbers_fit();
        let course = Course::make(alloc, setting, p)?;
        let queries = Queries::of(alloc, setting)?;
        let own = in_columns(alloc, &setting.job.program, &owned)?;
        let mut standing = Standing {
            stance: Stance::Owns(own),
            next: setting.job.start.next(),
            out: Vec::new(alloc),
            taken: Vec::with_capacity(alloc, setting.parts() as usize)?,
            shown: List::new(alloc),
            counts: Counts::none(),
        };
        if course.step().is_some() {
            let (next, shown) = (standing.next, &mut standing.shown);
            keep(setting, setting.job.first, owned, next, shown)?;
        }
        prepare(alloc, &course, &queries, &mut standing)?;
        Ok(Part {
            alloc,
            turns: Turns {
                course,
                cause: None,
            },
            queries,
            standing,
        })
    }

    /// The agents that it owns, by rising id; none between the query of a tick and the move.
    pub fn owned(&self, alloc: Global) -> Result<List<Agent>, NoMemory>
        ensures same { IfOk result (λ own. own ≡ self.now.owns) }
        ensures owner { self.now.cause ≡ None → IsSettled (step_of self.now.course)
            → self.now.owns ≡ own_at self.now.course.setting self.now.course.actor
            (step_of self.now.course) }
    {
        let program = &self.turns.course.setting().job.program;
        let own = herd_in(alloc, program, &self.standing.stance)?;
        Ok(List::from_vec(own.agents()?))
    }

    /// How much it gave to others so far, that of its step included. Where it goes on, that is what
    /// a part of its number gives in all steps up to its step. Counts that do not fit 128 bits are
    /// no more counted: the part goes no further, as where it finds no memory.
    pub fn counts(&self) -> Counts
        ensures same { result ≡ self.now.counts }
        ensures given { self.now.cause ≡ None → self.now.counts ≡ counts_up_to
            self.now.course.setting self.now.course.actor self.now.course.number }
    {
        self.standing.counts
    }

    /// Its agents of the shown ticks since the last end. Where it goes no further these stay as
    /// they were in the work in which it came to that, or as the next step was to show them.
    pub fn shown(&self) -> &[Shown]
        ensures same { result.now ≡ self.now.shown }
        ensures right { AreKept self.now.course.setting self.now.course.actor self.now.shown }
        ensures all { self.now.cause ≡ None → self.now.shown ≡ keeps_at
            self.now.course.setting self.now.course.actor (step_of self.now.course) }
    {
        self.standing.shown.as_slice()
    }

    /// The tick whose query it evaluates in its next turn: where it goes on, that turn is its work,
    /// and agents were shown to it in that step. No memory is taken.
    pub fn query_tick(&self) -> Option<u64>
        ensures { result ≡ asks_next self.now }
    {
        if self.turns.cause.is_some() {
            return None;
        }
        match (self.turns.course.turn(), self.turns.course.step()) {
            (Turn::Work, Some(at)) if at.stage == Stage::Border => Some(at.tick),
            _ => None,
        }
    }

    /// Why it goes no further. Where it found faults in a work that it made, it has a cause: the
    /// least of them, or one that it had before that work.
    pub fn cause(&self) -> Option<Cause>
        ensures same { result ≡ self.now.cause }
        ensures right { IfSome result
            (IsRightCause self.now.course.setting self.now.course.number) }
        ensures found { IsCauseOfAll self.now.course.setting self.now.course.actor
            self.now.course.number self.now.cause }
        ensures course { IsCourse self.now.course }
    {
        self.turns.cause
    }
}

impl<'a> Actor<Piece> for Part<'a> {
    ghost use Rattle.brace_pieces.specs.Courses.{past_of};

    type Opening = ();

    ghost setting = { λ part. part.course.setting };

    ghost number = { λ part. part.course.actor };

    ghost opening = { λ part. tt };

    ghost past = { λ part. past_of part.course };

    fn next(&self, end: u64) -> Turn {
        self.turns.course.turn_to(end)
    }

    fn piece(&mut self) -> Piece
        requires turn { IsPut (due_on self.old.course) }
        ensures right { (name : Name) → due_on self.old.course ≡ turn.Put name
            → IsRight self.old.course.setting name result }
        ensures goes_on { past_of self.new.course ≡ past_of self.old.course + 1 }
        ensures same_setting { self.new.course.setting ≡ self.old.course.setting }
        ensures same_number { self.new.course.actor ≡ self.old.course.actor }
        ensures course { self.new.course ≡ gone_on self.old.course }
        ensures owns { self.new.owns ≡ self.old.owns }
        ensures shown { self.new.shown ≡ self.old.shown }
        ensures cause { self.new.cause ≡ self.old.cause }
        ensures counts { self.new.counts ≡ self.old.counts }
        ensures halts { (c : Cause) → self.old.cause ≡ Some c → result ≡ piece.Halt c }
        ensures tells { self.old.cause ≡ None → (c : Cause) → result ≡ piece.Halt c → ⊥ }
    {
        self.turns.put();
        match self.turns.cause {
            Some(cause) => Piece::Halt(cause),
            None => match self.standing.out.pop() {
                Some(piece) => piece,
                None => unreachable!(),
            },
        }
    }

    fn give(&mut self, piece: Piece)
        requires turn { IsTake (due_on self.old.course) }
        requires right { (name : Name) → due_on self.old.course ≡ turn.Take name
            → IsRight self.old.course.setting name piece }
        ensures course { self.new.course ≡ gone_on self.old.course }
        ensures owns { self.new.owns ≡ self.old.owns }
        ensures shown { self.new.shown ≡ self.old.shown }
        ensures cause { self.new.cause ≡ cause_behind self.old.cause piece }
        ensures counts { self.new.counts ≡ self.old.counts }
        ensures goes_on { past_of self.new.course ≡ past_of self.old.course + 1 }
        ensures same_setting { self.new.course.setting ≡ self.old.course.setting }
        ensures same_number { self.new.course.actor ≡ self.old.course.actor }
    {
        self.turns.take(&piece);
        if self.turns.cause.is_some() {
            // No piece is of use behind a cause.
            return;
        }
        self.standing.taken.push_reserved(piece);
    }

    fn work(&mut self)
        requires turn { due_on self.old.course ≡ turn.Work }
        ensures goes_on { past_of self.new.course ≡ past_of self.old.course + 1 }
        ensures same_setting { self.new.course.setting ≡ self.old.course.setting }
        ensures same_number { self.new.course.actor ≡ self.old.course.actor }
        ensures course { self.new.course ≡ gone_on self.old.course }
        ensures stays { (c : Cause) → self.old.cause ≡ Some c → self.new.cause ≡ Some c }
        ensures finds { (at : Step) → self.old.cause ≡ None → step_of self.old.course ≡ Some at
            → (self.new.cause ≡ cause_of (least (found_in_work self.old.course.setting
            self.old.course.actor at.stage at.tick))) ⊎ (self.new.cause ≡ Some cause.NoMemory) }
        ensures still { (c : Cause) → self.new.cause ≡ Some c → StillShows self.old self.new }
    {
        let number = self.turns.course.number();
        let at = self.turns.work();
        if self.turns.cause.is_some() {
            return;
        }
        let (course, queries) = (&self.turns.course, &self.queries);
        let standing = &mut self.standing;
        let worked = advance(self.alloc, course, queries, number, at, standing);
        if let Err(cause) = worked {
            self.turns.cause = Some(cause);
        }
    }
}
