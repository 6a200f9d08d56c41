//! The members of a run on several workers, before their first turns.
ghost use Rattle.std.specs.Prelude.{◌≡◌, ◌+◌, ◌<◌, map, IfOk, IfErr};
ghost use Rattle.std.specs.List.{All};
ghost use Rattle.std.specs.Vec.{vec_len, vec_capacity};
ghost use Rattle.brace_lanes.specs.Seats.{new_seats};
ghost use Rattle.brace_pieces.specs.Settings.{LawfulSetting, parts};
ghost use Rattle.brace_crew.specs.inner.Crews.{AreNew, all_numbers, part_numbers};
ghost use Rattle.brace_crew.specs.inner.Teams.{AreRosters, HasCome, IsTeam};

use crate::crew::parts;
use crate::{Bench, Member};
use brace_desk::{Desk, Publisher};
use brace_lanes::{LaneEnd, LaneSeat, Lanes};
use brace_num::NoMemory;
use brace_pieces::{Piece, Setting};
use std::alloc::Global;

/// The parts that each worker serves, by rising worker, each list with a place for one more member.
fn part_rosters<'a, P: Publisher>(
    alloc: Global,
    setting: &'a Setting,
    workers: u32,
) -> Result<Vec<Vec<Member<'a, P>>>, NoMemory>
    requires lawful { LawfulSetting setting.now }
    requires some_worker { 0 < workers }
    ensures rosters { (publisher : P) → IfOk result (λ all. AreRosters setting.now publisher workers
        (part_numbers setting.now) (map (λ l. l.items) all.items)) }
    ensures first_turns { IfOk result (λ all. All (λ l. AreNew l.items) all.items) }
    ensures room { IfOk result (λ all. All (λ l. vec_len l < vec_capacity l) all.items) }
{
    let mut all = Vec::with_capacity(alloc, workers as usize)?;
    for worker in 0..workers {
        all.push_reserved(parts(alloc, setting, worker, workers)?);
    }
    Ok(all)
}

/// The members that each worker serves, by rising worker; `Err` gives the publisher back where
/// memory is refused.
fn rosters<'a, P: Publisher>(
    alloc: Global,
    setting: &'a Setting,
    workers: u32,
    publisher: P,
) -> Result<Vec<Vec<Member<'a, P>>>, P>
    requires lawful { LawfulSetting setting.now }
    requires fits { P.fits publisher setting.now.job.program }
    requires some_worker { 0 < workers }
    ensures rosters { IfOk result (λ all. AreRosters setting.now publisher workers
        (all_numbers setting.now) (map (λ l. l.items) all.items)) }
    ensures first_turns { IfOk result (λ all. All (λ l. AreNew l.items) all.items) }
    ensures back { IfErr result (λ p. p ≡ publisher) }
{
    let mut all = match part_rosters(alloc, setting, workers) {
        Ok(all) => all,
        Err(NoMemory) => return Err(publisher),
    };
    let desk = Desk::make(alloc, setting, publisher)?;
    let worker = setting.parts() % workers;
    all[worker as usize].push_reserved(Member::Desk(desk));
    Ok(all)
}

/// The benches of a run before their first turns, one for each seat of its lanes, by rising number;
/// `Err` gives the publisher back where memory is refused.
pub fn benches<'a, P: Publisher>(
    alloc: Global,
    setting: &'a Setting,
    lanes: &'a Lanes<Piece>,
    seats: Vec<LaneSeat<Piece>>,
    workers: u32,
    publisher: P,
) -> Result<Vec<Bench<'a, P>>, P>
    requires lawful { LawfulSetting setting.now }
    requires fits { P.fits publisher setting.now.job.program }
    requires some_worker { 0 < workers }
    requires seats { seats.items
        ≡ new_seats lanes.now setting.now (parts setting.now + 1) workers workers }
    ensures team { IfOk result (λ all. IsTeam setting.now publisher workers
        (all_numbers setting.now) all.items) }
    ensures start { IfOk result (λ all. All (HasCome 0) all.items) }
    ensures back { IfErr result (λ p. p ≡ publisher) }
{
    let Ok(mut all) = Vec::with_capacity(alloc, workers as usize) else {
        return Err(publisher);
    };
    let mut rosters = rosters(alloc, setting, workers, publisher)?.into_iter();
    for seat in seats {
        let number = all.len();
        if let Some(members) = rosters.next() {
            all.push_reserved(Bench::make(members, LaneEnd { seat, lanes }, number));
        }
    }
    Ok(all)
}
