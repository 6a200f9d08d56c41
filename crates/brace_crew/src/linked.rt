//! A run over links.
ghost use Rattle.std.specs.Prelude.{◌≡◌, ℕ, ◌+◌, map, length, not, Err, IsTrue, OnOk};
ghost use Rattle.std.specs.List.{list_any};
ghost use Rattle.brace_core.specs.Schedule.{front, lane};
ghost use Rattle.brace_pieces.specs.Settings.{LawfulSetting, parts};
ghost use Rattle.brace_pieces.specs.Steps.{schedule};
ghost use Rattle.brace_wire.specs.Links.{fresh, link_of, puts_on, received_on, takes_on};
ghost use Rattle.brace_wire.specs.Shown.{is_lost};
ghost use Rattle.brace_crew.specs.Came.{CameTo};
ghost use Rattle.brace_crew.specs.Members.{course_of, opening_of};
ghost use Rattle.brace_crew.specs.Workers.{AreUsedTo, EndsBehind, TellsEnd};
ghost use Rattle.brace_crew.specs.inner.Crews.{AreMembers, AreEnded, Begin, all_numbers};

use crate::crew::{actors, concluded, end_here, members};
use crate::{CrewFault, Member};
use brace_desk::{Desk, Publisher, Stop};
use brace_num::NoMemory;
use brace_pieces::{Counts, Fronts, Setting};
use brace_wire::{Fate, WireLanes, run_over_links};
use std::alloc::Global;

/// What a run came to that was given up for want of memory, by its desk.
fn left<P: Publisher>(setting: &Setting, desk: Desk<P>) -> (P, CrewFault)
    requires lawful { LawfulSetting setting.now }
    requires desk { desk.course.setting ≡ setting.now }
    ensures came { CameTo P.Publisher setting.now desk.entry.opening result.0 (Err result.1) }
    ensures no_end { TellsEnd (Err result.1) → ⊥ }
{
    setting.numbers_fit();
    match desk.stop() {
        None => (desk.into_publisher(), CrewFault::NoMemory),
        Some(Stop::Halt(_)) => (desk.into_publisher(), CrewFault::NoMemory),
        Some(Stop::Refusal(refusal)) => (desk.into_publisher(), CrewFault::Publish(refusal)),
    }
}

/// What a run came to that was given up for want of memory, by all its members.
fn given_up<P: Publisher>(setting: &Setting, mut members: Vec<Member<P>>) -> (P, CrewFault)
    requires lawful { LawfulSetting setting.now }
    requires members { (publisher : P)
        × AreMembers setting.now publisher (all_numbers setting.now) members.items }
    ensures came { (publisher : P)
        → AreMembers setting.now publisher (all_numbers setting.now) members.entry.items
        → CameTo P.Publisher setting.now publisher result.0 (Err result.1) }
    ensures no_end { TellsEnd (Err result.1) → ⊥ }
{
    match members.pop() {
        Some(Member::Desk(desk)) => left(setting, desk),
        Some(Member::Part(_part)) => unreachable!(),
        None => unreachable!(),
    }
}

/// Runs all members of a run over links from end to end, up to the last, or to the one at which the
/// desk put its Halt to all. A call that finds no memory is given up.
fn run_through<P: Publisher>(
    setting: &Setting,
    members: &mut [Member<P>],
    lanes: &mut WireLanes,
    order: u64,
) -> Result<(), NoMemory>
    requires lawful { LawfulSetting setting.now }
    requires begin { Begin setting.now members.old }
    requires lanes_setting { lanes.old.setting ≡ setting.now }
    requires lanes_for { lanes.old.actors ≡ parts setting.now + 1 }
    requires nothing_put { (p q : ℕ) → link_of lanes.old p q ≡ fresh }
    requires no_round { lanes.old.rounds ≡ 0 }
    ensures same_settings { map (λ m. (course_of m).setting) members.new
        ≡ map (λ m. (course_of m).setting) members.old }
    ensures same_numbers { map (λ m. (course_of m).actor) members.new
        ≡ map (λ m. (course_of m).actor) members.old }
    ensures same_openings { map opening_of members.new ≡ map opening_of members.old }
    ensures ended { OnOk result ((n : ℕ) × (AreEnded setting.now n members.new
        × AreUsedTo setting.now n (puts_on lanes.new) (takes_on lanes.new)
        × ((p q : ℕ) → received_on lanes.new p q
        ≡ length (lane (front (schedule setting.now) n) p q)))) }
    ensures lanes_setting { lanes.new.setting ≡ lanes.old.setting }
    ensures lanes_actors { lanes.new.actors ≡ lanes.old.actors }
{
    let mut fronts = Fronts::of(setting);
    while let Some(end) = fronts.next() {
        run_over_links(members, lanes, order, end)?;
        if end_here(members) {
            return Ok(());
        }
    }
    Ok(())
}

/// Runs the parts of a setting and its publisher over links, as
/// [`crew_run_alone`](crate::crew_run_alone) does over plain lanes.
///
/// The setting is lawful and the publisher fits it. The lanes are made for it, with one actor more
/// than it has parts, nothing was put on them, and no round was made.
pub fn crew_run_linked<P: Publisher>(
    alloc: Global,
    setting: &Setting,
    order: u64,
    lanes: &mut WireLanes,
    publisher: P,
) -> (P, Result<Counts, CrewFault>)
    requires lawful { LawfulSetting setting.now }
    requires fits { P.fits publisher setting.now.job.program }
    requires lanes_setting { lanes.old.setting ≡ setting.now }
    requires lanes_for { lanes.old.actors ≡ parts setting.now + 1 }
    requires nothing_put { (p q : ℕ) → link_of lanes.old p q ≡ fresh }
    requires no_round { lanes.old.rounds ≡ 0 }
    ensures came { CameTo P.Publisher setting.now publisher result.0 result.1 }
    ensures used { TellsEnd result.1 → (n : ℕ) × (
        EndsBehind P.Publisher setting.now publisher result.0 n result.1
        × AreUsedTo setting.now n (puts_on lanes.new) (takes_on lanes.new)
        × ((p q : ℕ) → received_on lanes.new p q
        ≡ length (lane (front (schedule setting.now) n) p q))) }
    ensures lanes_setting { lanes.new.setting ≡ lanes.old.setting }
    ensures lanes_actors { lanes.new.actors ≡ lanes.old.actors }
{
    let mut members = match members(alloc, setting, publisher) {
        Ok(members) => members,
        Err(publisher) => return (publisher, Err(CrewFault::NoMemory)),
    };
    match run_through(setting, &mut members, lanes, order) {
        Ok(()) => concluded(alloc, setting, members),
        Err(NoMemory) => {
            let (publisher, fault) = given_up(setting, members);
            (publisher, Err(fault))
        }
    }
}

/// Runs the parts of a setting and its publisher over links of their own, on which sendings have
/// these fates in turn, as [`crew_run_linked`] does.
///
/// The setting is lawful and the publisher fits it. One fate is other than a loss.
pub fn crew_run_on_links<P: Publisher>(
    alloc: Global,
    setting: &Setting,
    order: u64,
    fates: Vec<Fate>,
    publisher: P,
) -> (P, Result<Counts, CrewFault>)
    requires lawful { LawfulSetting setting.now }
    requires fits { P.fits publisher setting.now.job.program }
    requires delivers { IsTrue (list_any (λ fate. not (is_lost fate)) fates.items) }
    ensures came { CameTo P.Publisher setting.now publisher result.0 result.1 }
{
    match WireLanes::make(alloc, setting, actors(setting), fates) {
        Ok(mut lanes) => crew_run_linked(alloc, setting, order, &mut lanes, publisher),
        Err(NoMemory) => (publisher, Err(CrewFault::NoMemory)),
    }
}
