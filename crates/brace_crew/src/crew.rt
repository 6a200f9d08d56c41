ghost use Rattle.std.specs.Prelude.{◌≡◌, ℕ, ◌+◌, ◌<◌, ◌≤◌, ◌^◌, ◌==◌, true, false, List, map, flat_map, length, IfOk, IfErr, IfSome, Ok, Err, Some, None, IsTrue};
ghost use Rattle.std.specs.List.{All, Contains, find, range_with_len};
ghost use Rattle.std.specs.Option.{option_copied};
ghost use Rattle.std.specs.Vec.{vec_len, vec_capacity};
ghost use Rattle.brace_core.specs.Lanes.{AreBelow, puts_of, takes_of};
ghost use Rattle.brace_model.specs.declared.fault.Fault.{Fault};
ghost use Rattle.brace_model.specs.FaultOrder.{least};
ghost use Rattle.brace_pieces.specs.declared.setting.Setting.{Setting};
ghost use Rattle.brace_pieces.specs.declared.piece.Cause.TheVariants as cause;
ghost use Rattle.brace_pieces.specs.Settings.{LawfulSetting, parts, is_end, shown_from, shown_ticks};
ghost use Rattle.brace_pieces.specs.Steps.{schedule, steps};
ghost use Rattle.brace_pieces.specs.Right.{IsShown};
ghost use Rattle.brace_pieces.specs.Courses.{IsCourse, at_start};
ghost use Rattle.brace_pieces.specs.declared.counts.Counts.{Counts};
ghost use Rattle.brace_pieces.specs.Given.{all_given};
ghost use Rattle.brace_desk.specs.declared.publisher.PubFault.{PubFault};
ghost use Rattle.brace_desk.specs.declared.publisher.PubFault.TheVariants as refusal;
ghost use Rattle.brace_desk.specs.Calls.{ticks_left, Rises};
ghost use Rattle.brace_crew.specs.Came.{refused_by, CameTo};
ghost use Rattle.brace_desk.specs.Desks.{whole_at, HasHalted};
ghost use Rattle.brace_crew.specs.Members.{course_of, opening_of, HasTold, IsAt, WasUntold};
ghost use Rattle.brace_crew.specs.Workers.{AreUsedTo, EndsBehind, HasEnded};
ghost use Rattle.brace_desk.specs.Lots.{world_of, brought, tick_shown};
ghost use Rattle.brace_crew.specs.inner.Crews.{AreParts, AreMembers, AreNew, AreEnded, Begin, HaveDeskLast, IsDeskOf, told_by, IsTelling, AreOf, all_numbers, part_numbers, served};

use crate::Member;
use brace_core::{PlainLanes, run_in_order};
use brace_desk::{Desk, Lot, PubFault, Publisher, Stop, joined};
use brace_model::{Fault, with_earlier};
use brace_num::{List, NoMemory};
use brace_part::Part;
use brace_pieces::{Cause, Counts, Fronts, Piece, Setting, Shown, owned_of};
use std::alloc::Global;

/// Why a run did not come to its last tick, or not all of it was published.
#[derive(Clone, Copy, PartialEq, Eq, Drop)]
pub enum CrewFault {
    /// The run's first fault; all up to its tick was published.
    Fault(Fault),
    /// The publisher refused, and not for want of memory.
    Publish(PubFault),
    /// Memory was refused, to the crew or to the publisher.
    NoMemory,
}

impl From<NoMemory> for CrewFault {
    fn from(_: NoMemory) -> CrewFault {
        CrewFault::NoMemory
    }
}

/// A part of a run before its first turn.
fn part_of<'a>(alloc: Global, setting: &'a Setting, number: u32) -> Result<Part<'a>, NoMemory>
    requires lawful { LawfulSetting setting.now }
    requires below { number < parts setting.now }
    ensures { IfOk result (λ part. part.course ≡ at_start setting.now number) }
{
    let job = &setting.job;
    let own = owned_of(alloc, setting, job.first, job.start.agents(), number)?;
    Part::make(alloc, setting, number, own)
}

/// The parts of a run that a worker serves, of so many workers, before their first turns, with a
/// place for one more member.
pub(crate) fn parts<'a, P: Publisher>(
    alloc: Global,
    setting: &'a Setting,
    worker: u32,
    workers: u32,
) -> Result<Vec<Member<'a, P>>, NoMemory>
    requires lawful { LawfulSetting setting.now }
    requires some_worker { 0 < workers }
    ensures parts { (publisher : P) → IfOk result (λ all. AreMembers setting.now publisher
        (served workers worker (part_numbers setting.now)) all.items) }
    ensures first_turns { IfOk result (λ all. AreNew all.items) }
    ensures room { IfOk result (λ all. vec_len all < vec_capacity all) }
{
    let count = setting.parts();
    let mut all = Vec::with_capacity(alloc, count as usize + 1)?;
    for p in 0..count {
        if p % workers == worker {
            all.push_reserved(Member::Part(part_of(alloc, setting, p)?));
        }
    }
    Ok(all)
}

/// All members of a run before their first turns: its parts, and the desk behind them; `Err` gives
/// the publisher back where memory is refused.
pub(crate) fn members<'a, P: Publisher>(
    alloc: Global,
    setting: &'a Setting,
    publisher: P,
) -> Result<Vec<Member<'a, P>>, P>
    requires lawful { LawfulSetting setting.now }
    requires fits { P.fits publisher setting.now.job.program }
    ensures members { IfOk result (λ all.
        AreMembers setting.now publisher (all_numbers setting.now) all.items) }
    ensures first_turns { IfOk result (λ all. AreNew all.items) }
    ensures back { IfErr result (λ p. p ≡ publisher) }
{
    let mut all = match parts(alloc, setting, 0, 1) {
        Ok(all) => all,
        Err(NoMemory) => return Err(publisher),
    };
    let desk = Desk::make(alloc, setting, publisher)?;
    all.push_reserved(Member::Desk(desk));
    Ok(all)
}

/// What all parts gave, where all went to the end.
fn counts_of<P: Publisher>(members: &[Member<P>]) -> Result<Counts, NoMemory>
    ensures { (s : Setting) → AreParts s members.now → All (IsAt (length (steps s))) members.now
        → IfOk result (λ counts. counts ≡ all_given s) }
{
    let mut all = Counts::none();
    for member in members {
        match member {
            Member::Part(part) if part.cause().is_none() => all.join(part.counts())?,
            _ => return Err(NoMemory),
        }
    }
    Ok(all)
}

/// The least fault that parts met; None where one of them went no further for another cause.
fn least_fault<P: Publisher>(members: &[Member<P>]) -> Option<Fault>
    ensures least { IfSome result (λ f. least (flat_map told_by members.now) ≡ Some f) }
    ensures telling { IfSome result (λ f. All IsTelling members.now) }
{
    let mut least = None;
    for member in members {
        match member {
            Member::Part(part) => match part.cause() {
                None => {}
                Some(Cause::Fault(fault)) => least = Some(with_earlier(least, fault)),
                Some(Cause::NoMemory | Cause::Closed) => return None,
            },
            Member::Desk(_) => return None,
        }
    }
    least
}

/// The published ticks behind the last end up to a tick, in order.
fn ticks_left(alloc: Global, setting: &Setting, tick: u64) -> Result<Vec<u64>, NoMemory>
    requires not_before { setting.now.job.first ≤ tick }
    requires ticks { tick < 2 ^ 32 }
    requires lawful { LawfulSetting setting.now }
    ensures { IfOk result (λ ticks. ticks.items ≡ ticks_left setting.now tick) }
{
    let first = setting.job.first;
    let mut from = tick + 1;
    while first < from && !setting.is_end(from - 1) {
        from -= 1;
    }
    let mut ticks = Vec::new(alloc);
    for t in from..tick + 1 {
        if t.is_multiple_of(setting.job.every) {
            ticks.push(t)?;
        }
    }
    Ok(ticks)
}

/// The world of a tick, if it is in a list.
fn world_at(worlds: &[Shown], tick: u64) -> Option<&Shown>
    ensures { option_copied result ≡ find (λ w. w.tick == tick) worlds.now }
{
    worlds.iter().find(|w| w.tick == tick)
}

/// The worlds of these ticks out of a list, copied; None where one is not there.
fn picked(alloc: Global, ticks: &[u64], worlds: &[Shown]) -> Result<Option<Vec<Shown>>, NoMemory>
    ensures { (s : Setting) (held p : ℕ) → AreOf s held p ticks.now worlds.now
        → IfOk result (λ found. IfSome found (λ all.
        all.items ≡ map (world_of s held p) ticks.now)) }
{
    let mut all = Vec::new(alloc);
    for t in ticks {
        match world_at(worlds, *t) {
            None => return Ok(None),
            Some(world) => all.push(copy_of(alloc, world)?)?,
        }
    }
    Ok(Some(all))
}

/// A copy of a part's agents of a tick.
fn copy_of(alloc: Global, world: &Shown) -> Result<Shown, NoMemory>
    ensures { IfOk result (λ copy. copy ≡ world.now) }
{
    let agents = world.agents.copy(alloc)?;
    Ok(Shown {
        tick: world.tick,
        agents,
        next: world.next,
    })
}

/// What a part brought, if it is in a list.
fn lot_of(lots: &[Lot], p: u32) -> Option<&Lot>
    ensures { option_copied result ≡ find (λ lot. lot.part == p) lots.now }
{
    lots.iter().find(|lot| lot.part == p)
}

/// What a part brought at the last: what the desk kept of it, else what the part has.
fn brought<'b>(kept: &'b [Lot], p: u32, part: &'b Part) -> &'b [Shown]
    ensures { (end : ℕ) (ticks : List ℕ) → LawfulSetting part.now.course.setting
        → part.now.course.actor ≡ p
        → IsTrue (is_end part.now.course.setting end)
        → All (λ lot. IsShown part.now.course.setting end lot.part lot.worlds) kept.now
        → All (Contains (shown_ticks part.now.course.setting end)) ticks
        → AreOf part.now.course.setting (tick_shown part.now.course.setting end) p ticks
        result.now }
{
    match lot_of(kept, p) {
        None => part.shown(),
        Some(lot) => lot.worlds.as_slice(),
    }
}

/// What each part brought at the last of these ticks; None where one of them brought not all.
fn lots_left<P: Publisher>(
    alloc: Global,
    ticks: &[u64],
    members: &[Member<P>],
    kept: &[Lot],
) -> Result<Option<Vec<Lot>>, NoMemory>
    ensures { (s : Setting) (end : ℕ) → LawfulSetting s → AreParts s members.now
        → IsTrue (is_end s end)
        → All (λ lot. IsShown s end lot.part lot.worlds) kept.now
        → All (Contains (shown_ticks s end)) ticks.now
        → IfOk result (λ found. IfSome found (λ lots. lots.items
        ≡ map (brought s (tick_shown s end) ticks.now) (range_with_len 0 (parts s)))) }
{
    let mut lots = Vec::new(alloc);
    for p in 0..members.len() {
        let Member::Part(part) = &members[p] else {
            return Ok(None);
        };
        let Ok(part_number) = u32::try_from(p) else {
            return Ok(None);
        };
        let Some(worlds) = picked(alloc, ticks, brought(kept, part_number, part))? else {
            return Ok(None);
        };
        lots.push(Lot {
            part: part_number,
            worlds: List::from_vec(worlds),
        })?;
    }
    Ok(Some(lots))
}

/// The whole worlds that are left to be published behind the last end before a fault of a tick;
/// None where a part brought not all.
fn worlds_left<P: Publisher>(
    alloc: Global,
    setting: &Setting,
    tick: u64,
    members: &[Member<P>],
    kept: &[Lot],
) -> Result<Option<Vec<Shown>>, NoMemory>
    requires lawful { LawfulSetting setting.now }
    requires not_before { setting.now.job.first ≤ tick }
    requires ticks { tick < 2 ^ 32 }
    requires parts { AreParts setting.now members.now }
    ensures { (end : ℕ) → IsTrue (is_end setting.now end) → tick < end
        → shown_from setting.now end ≡ shown_from setting.now (tick + 1)
        → All (λ lot. IsShown setting.now end lot.part lot.worlds) kept.now
        → IfOk result (λ found. IfSome found (λ worlds. worlds.items
        ≡ map (whole_at setting.now) (ticks_left setting.now tick))) }
{
    setting.numbers_fit();
    let ticks = ticks_left(alloc, setting, tick)?;
    match lots_left(alloc, &ticks, members, kept)? {
        None => Ok(None),
        Some(mut lots) => Ok(Some(joined(alloc, &mut lots)?)),
    }
}

/// Whether a run of members may end here: none of them is a desk that is still to put its Halt to
/// all.
pub(crate) fn end_here<P: Publisher>(members: &mut [Member<P>]) -> bool
    requires desk_last { HaveDeskLast members.old }
    ensures told { result ≡ true → All HasTold members.new }
    ensures untold { result ≡ false → (s : Setting) (n : ℕ) → n ≤ length (steps s)
        → All (λ m. (course_of m).setting ≡ s) members.old → All (IsAt n) members.old
        → All (WasUntold s n) members.new }
    ensures same { result ≡ true → members.new ≡ members.old }
    ensures courses { map course_of members.new ≡ map course_of members.old }
    ensures openings { map opening_of members.new ≡ map opening_of members.old }
{
    if members.is_empty() {
        return true;
    }
    let last = members.len() - 1;
    members[last].ends_here()
}

/// What a run answers whose publisher refused.
fn refused_by(refusal: PubFault) -> CrewFault
    ensures { result ≡ refused_by refusal }
{
    match refusal {
        PubFault::NoMemory => CrewFault::NoMemory,
        PubFault::Write | PubFault::Save(_) | PubFault::Watch(_) => CrewFault::Publish(refusal),
    }
}

/// What a run comes to whose parts met faults: the least of these, where all up to its tick is
/// published.
fn ended<P: Publisher>(
    alloc: Global,
    desk: Desk<P>,
    setting: &Setting,
    members: &[Member<P>],
) -> (P, CrewFault)
    requires lawful { LawfulSetting setting.now }
    requires parts { AreParts setting.now members.now }
    requires desk { desk.course.setting ≡ setting.now }
    requires halted { (f : Fault) × HasHalted P.Publisher desk (cause.Fault f) }
    requires rises { Rises P.Publisher desk.opening desk.publisher }
    requires course { IsCourse desk.course }
    requires ended { (n : ℕ) × (All (IsAt n) members.now × IsDeskOf setting.now n desk) }
    ensures came { CameTo P.Publisher setting.now desk.entry.opening result.0 (Err result.1) }
    ensures ends { (n : ℕ) → All (IsAt n) members.now → IsDeskOf setting.now n desk.entry
        → EndsBehind P.Publisher setting.now desk.entry.opening result.0 n (Err result.1) }
{
    setting.numbers_fit();
    let Some(fault) = least_fault(members) else {
        return (desk.into_publisher(), CrewFault::NoMemory);
    };
    let left = worlds_left(alloc, setting, fault.tick, members, desk.kept());
    let mut publisher = desk.into_publisher();
    let worlds = match left {
        Ok(Some(worlds)) => worlds,
        Ok(None) | Err(NoMemory) => return (publisher, CrewFault::NoMemory),
    };
    if !worlds.is_empty() {
        if let Err(refusal) = publisher.epoch(alloc, setting, fault.tick, &worlds) {
            return (publisher, refused_by(refusal));
        }
    }
    (publisher, CrewFault::Fault(fault))
}

/// What a run came to, by its parts and its desk, which stand where it ends.
fn settled<P: Publisher>(
    alloc: Global,
    setting: &Setting,
    members: &[Member<P>],
    desk: Desk<P>,
) -> (P, Result<Counts, CrewFault>)
    requires lawful { LawfulSetting setting.now }
    requires parts { AreParts setting.now members.now }
    requires ended { (n : ℕ) × (All (IsAt n) members.now × IsDeskOf setting.now n desk) }
    ensures came { CameTo P.Publisher setting.now desk.entry.opening result.0 result.1 }
    ensures ends { (n : ℕ) → All (IsAt n) members.now → IsDeskOf setting.now n desk.entry
        → EndsBehind P.Publisher setting.now desk.entry.opening result.0 n result.1 }
{
    setting.numbers_fit();
    match desk.stop() {
        None => match counts_of(members) {
            Ok(counts) => (desk.into_publisher(), Ok(counts)),
            Err(NoMemory) => (desk.into_publisher(), Err(CrewFault::NoMemory)),
        },
        Some(Stop::Halt(Cause::Fault(_))) => {
            let (publisher, fault) = ended(alloc, desk, setting, members);
            (publisher, Err(fault))
        }
        Some(Stop::Halt(Cause::NoMemory | Cause::Closed)) => {
            (desk.into_publisher(), Err(CrewFault::NoMemory))
        }
        Some(Stop::Refusal(refusal)) => {
            (desk.into_publisher(), Err(CrewFault::Publish(refusal)))
        }
    }
}

/// What a run came to, by all its members, which stand where it ends.
pub(crate) fn concluded<P: Publisher>(
    alloc: Global,
    setting: &Setting,
    mut members: Vec<Member<P>>,
) -> (P, Result<Counts, CrewFault>)
    requires lawful { LawfulSetting setting.now }
    requires members { (publisher : P)
        × AreMembers setting.now publisher (all_numbers setting.now) members.items }
    requires ended { (n : ℕ) × AreEnded setting.now n members.items }
    ensures came { (publisher : P)
        → AreMembers setting.now publisher (all_numbers setting.now) members.entry.items
        → CameTo P.Publisher setting.now publisher result.0 result.1 }
    ensures ends { (publisher : P) (n : ℕ)
        → AreMembers setting.now publisher (all_numbers setting.now) members.entry.items
        → AreEnded setting.now n members.entry.items
        → EndsBehind P.Publisher setting.now publisher result.0 n result.1 }
{
    match members.pop() {
        Some(Member::Desk(desk)) => settled(alloc, setting, &members, desk),
        Some(Member::Part(_part)) => unreachable!(),
        None => unreachable!(),
    }
}

/// How many actors a run has, which are its parts and its desk: lanes can be made for so many.
pub fn actors(setting: &Setting) -> u32
    requires { LawfulSetting setting.now }
    ensures same { result ≡ parts setting.now + 1 }
    ensures few { result ≤ 65 }
    ensures below { AreBelow (schedule setting.now) result }
    ensures short { length (schedule setting.now).steps ≤ 2 ^ 40 }
{
    setting.parts() + 1
}

/// Runs all members of a run over plain lanes from end to end, up to the last, or to the one at
/// which the desk put its Halt to all.
fn run_through<P: Publisher>(
    setting: &Setting,
    members: &mut [Member<P>],
    lanes: &mut PlainLanes<Piece>,
    order: u64,
)
    requires lawful { LawfulSetting setting.now }
    requires begin { Begin setting.now members.old }
    requires lanes_setting { lanes.old.setting ≡ setting.now }
    requires lanes_for { lanes.old.actors ≡ parts setting.now + 1 }
    requires nothing_put { (p q : ℕ) → puts_of lanes.old p q ≡ 0 }
    ensures same_settings { map (λ m. (course_of m).setting) members.new
        ≡ map (λ m. (course_of m).setting) members.old }
    ensures same_numbers { map (λ m. (course_of m).actor) members.new
        ≡ map (λ m. (course_of m).actor) members.old }
    ensures same_openings { map opening_of members.new ≡ map opening_of members.old }
    ensures ended { (n : ℕ) × (AreEnded setting.now n members.new
        × AreUsedTo setting.now n (puts_of lanes.new) (takes_of lanes.new)) }
    ensures lanes_setting { lanes.new.setting ≡ lanes.old.setting }
    ensures lanes_actors { lanes.new.actors ≡ lanes.old.actors }
{
    let mut fronts = Fronts::of(setting);
    while let Some(end) = fronts.next() {
        run_in_order(members, lanes, order, end);
        if end_here(members) {
            return;
        }
    }
}

/// Runs the parts of a setting and its publisher over plain lanes, from each end of the run to the
/// next in the order that a number draws, and gives the publisher back with what all parts gave, or
/// why not all was published.
///
/// The setting is lawful and the publisher fits it. The lanes are made for it, with one actor more
/// than it has parts, and nothing was put on them. They are used to the end of the steps behind
/// which the run ends.
pub fn crew_run_alone<P: Publisher>(
    alloc: Global,
    setting: &Setting,
    order: u64,
    lanes: &mut PlainLanes<Piece>,
    publisher: P,
) -> (P, Result<Counts, CrewFault>)
    requires lawful { LawfulSetting setting.now }
    requires fits { P.fits publisher setting.now.job.program }
    requires lanes_setting { lanes.old.setting ≡ setting.now }
    requires lanes_for { lanes.old.actors ≡ parts setting.now + 1 }
    requires nothing_put { (p q : ℕ) → puts_of lanes.old p q ≡ 0 }
    ensures came { CameTo P.Publisher setting.now publisher result.0 result.1 }
    ensures used { (n : ℕ) × (HasEnded P.Publisher setting.now publisher result.0 n result.1
        × AreUsedTo setting.now n (puts_of lanes.new) (takes_of lanes.new)) }
    ensures lanes_setting { lanes.new.setting ≡ lanes.old.setting }
    ensures lanes_actors { lanes.new.actors ≡ lanes.old.actors }
{
    let mut members = match members(alloc, setting, publisher) {
        Ok(members) => members,
        Err(publisher) => return (publisher, Err(CrewFault::NoMemory)),
    };
    run_through(setting, &mut members, lanes, order);
    concluded(alloc, setting, members)
}
