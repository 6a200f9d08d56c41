//! A run on several workers.
ghost use Rattle.std.specs.Prelude.{◌≡◌, ◌≤◌, ◌<◌, ◌+◌, ℕ, [], true, false, length, map, slice_index_or, IfOk};
ghost use Rattle.std.specs.List.{All};
ghost use Rattle.std.specs.Vec.{vec_capacity};
ghost use Rattle.std.specs.Vec.Iter.{into_iter_items};
ghost use Rattle.brace_pieces.specs.declared.setting.Setting.{Setting};
ghost use Rattle.brace_lanes.specs.Seats.{new_seats};
ghost use Rattle.brace_pieces.specs.Settings.{LawfulSetting, parts};
ghost use Rattle.brace_pieces.specs.Steps.{steps};
ghost use Rattle.brace_crew.specs.Came.{CameTo};
ghost use Rattle.brace_crew.specs.Benches.{OnBench, IsSameBench};
ghost use Rattle.brace_crew.specs.Members.{HasTold, IsAt, IsLast, WasUntold};
ghost use Rattle.brace_crew.specs.Workers.{AreLeft};
ghost use Rattle.brace_crew.specs.inner.Crews.{AreMembers, all_numbers};
ghost use Rattle.brace_crew.specs.inner.Teams.{AreRosters, IsTeam, HasCome, HaveEnded, StaysWithin, AreLater, AreStill, seat_of};

use crate::crew::{actors, concluded};
use crate::crowd::Crowd;
use crate::roster::benches;
use crate::{Bench, CrewFault, Member, crew_run_alone};
use brace_core::PlainLanes;
use brace_desk::Publisher;
use brace_io::Gate;
use brace_lanes::{LaneSeat, Lanes};
use brace_num::NoMemory;
use brace_pieces::{Counts, Fronts, Piece, Setting};
use std::alloc::Global;
use std::sync::Wait;
use std::thread;
use std::thread::Threads;
use std::vec::IntoIter;

/// Whether no member of benches has a turn left in the first steps, so many.
fn are_complete<P: Publisher>(benches: &[Bench<P>], steps: u64) -> bool
    ensures { result ≡ true → All (StaysWithin steps) benches.now
        → All (HasCome steps) benches.now }
{
    for bench in benches {
        if !bench.is_complete(steps) {
            return false;
        }
    }
    true
}

/// Whether a run on benches may end here: its desk put its Halt to all.
fn end_here<P: Publisher>(setting: &Setting, benches: &mut [Bench<P>]) -> bool
    requires lawful { LawfulSetting setting.now }
    requires some_bench { 0 < length benches.old }
    requires team { (publisher : P) × ((workers : ℕ) × IsTeam setting.now publisher workers
        (all_numbers setting.now) benches.old) }
    ensures told { result ≡ true → All (λ b. All HasTold b.members) benches.new }
    ensures untold { result ≡ false → (n : ℕ) → n ≤ length (steps setting.now)
        → All (λ b. All (IsAt n) b.members) benches.old
        → All (λ b. All (WasUntold setting.now n) b.members) benches.new }
    ensures same { result ≡ true → benches.new ≡ benches.old }
    ensures still { AreStill benches.old benches.new }
    ensures come { (n : ℕ) → All (HasCome n) benches.old → All (HasCome n) benches.new }
{
    let worker = setting.parts() as usize % benches.len();
    benches[worker].ends_here()
}

/// Whether a thread can be made now.
fn can_fork<R: Threads>(rt: &R) -> bool {
    match thread::spawn(rt, || {}) {
        Ok(handle) => {
            handle.join(rt);
            true
        }
        Err(_) => false,
    }
}

/// Drives each bench through the first steps, so many, in at most so many threads: in more than one
/// beside the others, and in one as far as it can go by itself, one bench behind the other. Tells
/// whether two were driven at one time.
fn drive_each<R: Threads + Wait + Sync, P: Publisher + Send, G: Gate + Sync>(
    rt: &R,
    benches: &mut [Bench<P>],
    gate: &G,
    threads: usize,
    steps: u64,
) -> bool
    requires some_thread { 0 < threads }
    ensures same { AreLater benches.old benches.new }
    ensures within { (k : ℕ) (d : OnBench P) → k < length benches.old
        → StaysWithin steps (slice_index_or benches.old k d)
        → StaysWithin steps (slice_index_or benches.new k d) }
{
    let crowd = Crowd::new();
    thread::for_each_mut(
        rt,
        benches,
        threads,
        &|_, bench|
            ensures { IsSameBench bench.old bench.new
                × (StaysWithin steps bench.old → StaysWithin steps bench.new) }
        {
            if threads > 1 {
                bench.drive_among(rt, gate, &crowd, steps);
            } else {
                bench.drive(gate, 1, steps);
            }
        },
    );
    crowd.has_met()
}

/// Drives the benches in turn, so often, or until all are complete in the first steps, so many.
fn drive_in_turn<R: Threads + Wait + Sync, P: Publisher + Send, G: Gate + Sync>(
    rt: &R,
    benches: &mut [Bench<P>],
    gate: &G,
    times: u64,
    steps: u64,
)
    ensures same { AreLater benches.old benches.new }
    ensures within { (k : ℕ) (d : OnBench P) → k < length benches.old
        → StaysWithin steps (slice_index_or benches.old k d)
        → StaysWithin steps (slice_index_or benches.new k d) }
{
    for _ in 0..times {
        if are_complete(benches, steps) {
            return;
        }
        drive_each(rt, benches, gate, 1, steps);
    }
}

/// Drives benches through the first steps, so many, beside each other, again and again, until all
/// are complete. While no thread can be made it drives them in turn, and asks for threads less and
/// less often.
fn drive_to<R: Threads + Wait + Sync, P: Publisher + Send, G: Gate + Sync>(
    rt: &R,
    benches: &mut [Bench<P>],
    gate: &G,
    steps: u64,
)
    requires some_bench { 0 < length benches.old }
    requires within { All (StaysWithin steps) benches.old }
    ensures same { AreLater benches.old benches.new }
    ensures come { All (HasCome steps) benches.new }
{
    let workers = benches.len();
    let mut times = 1u64;
    for _ in rt.forever() {
        if are_complete(benches, steps) {
            return;
        }
        if can_fork(rt) && drive_each(rt, benches, gate, workers, steps) {
            times = 1;
        } else {
            drive_in_turn(rt, benches, gate, times, steps);
            times = times.saturating_mul(2);
        }
    }
}

/// Drives the benches of a run from end to end, up to the last, or to the one at which the desk put
/// its Halt to all.
fn drive_through<R: Threads + Wait + Sync, P: Publisher + Send, G: Gate + Sync>(
    rt: &R,
    setting: &Setting,
    benches: &mut [Bench<P>],
    gate: &G,
)
    requires lawful { LawfulSetting setting.now }
    requires some_bench { 0 < length benches.old }
    requires team { (publisher : P) × ((workers : ℕ) × IsTeam setting.now publisher workers
        (all_numbers setting.now) benches.old) }
    requires start { All (HasCome 0) benches.old }
    ensures still { AreStill benches.old benches.new }
    ensures ended { (n : ℕ) × HaveEnded setting.now n benches.new }
{
    let mut fronts = Fronts::of(setting);
    while let Some(end) = fronts.next() {
        drive_to(rt, benches, gate, end);
        if end_here(setting, benches) {
            return;
        }
    }
}

/// Places for what comes out of the benches of a run.
#[derive(Drop)]
struct Room<'a, P: Publisher> {
    lists: Vec<IntoIter<Member<'a, P>, Global>>,
    members: Vec<Member<'a, P>>,
    seats: Vec<LaneSeat<Piece>>,
}

impl<'a, P: Publisher> Room<'a, P> {
    /// Places for so many workers and members.
    fn make(alloc: Global, workers: usize, members: usize) -> Result<Room<'a, P>, NoMemory>
        ensures no_list { IfOk result (λ room. room.lists.items ≡ []) }
        ensures no_member { IfOk result (λ room. room.members.items ≡ []) }
        ensures no_seat { IfOk result (λ room. room.seats.items ≡ []) }
        ensures lists_room { IfOk result (λ room. workers ≤ vec_capacity room.lists) }
        ensures members_room { IfOk result (λ room. members ≤ vec_capacity room.members) }
        ensures seats_room { IfOk result (λ room. workers ≤ vec_capacity room.seats) }
    {
        Ok(Room {
            lists: Vec::with_capacity(alloc, workers)?,
            members: Vec::with_capacity(alloc, members)?,
            seats: Vec::with_capacity(alloc, workers)?,
        })
    }
}

/// Takes the members of benches and their seats.
fn unpack<'a, P: Publisher>(
    benches: Vec<Bench<'a, P>>,
    lists: &mut Vec<IntoIter<Member<'a, P>, Global>>,
    seats: &mut Vec<LaneSeat<Piece>>,
)
    requires no_list { lists.old.items ≡ [] }
    requires no_seat { seats.old.items ≡ [] }
    requires lists_room { length benches.items ≤ vec_capacity lists.old }
    requires seats_room { length benches.items ≤ vec_capacity seats.old }
    ensures lists { map into_iter_items lists.new.items ≡ map (λ b. b.members) benches.entry.items }
    ensures seats { seats.new.items ≡ map seat_of benches.entry.items }
{
    for bench in benches {
        let (members, seat) = bench.into_members();
        lists.push_reserved(members.into_iter());
        seats.push_reserved(seat);
    }
}

/// Takes so many members from lists, one from each in turn.
fn take_in_turn<'a, P: Publisher>(
    lists: &mut [IntoIter<Member<'a, P>, Global>],
    count: usize,
    members: &mut Vec<Member<'a, P>>,
)
    requires some_list { 0 < length lists.old }
    requires no_member { members.old.items ≡ [] }
    requires room { count ≤ vec_capacity members.old }
    ensures members { (s : Setting) (publisher : P) → count ≡ parts s + 1
        → AreRosters s publisher (length lists.old) (all_numbers s) (map into_iter_items lists.old)
        → AreMembers s publisher (all_numbers s) members.new.items }
    ensures last { (s : Setting) (before n : ℕ)
        → All (λ list. All (IsLast s before n) (into_iter_items list)) lists.old
        → All (IsLast s before n) members.new.items }
{
    let workers = lists.len();
    for number in 0..count {
        if let Some(member) = lists[number % workers].next() {
            members.push_reserved(member);
        }
    }
}

/// A run on the workers of seats, one each, of lanes that are made for it.
fn run_on<'a, R: Threads + Wait + Sync, P: Publisher + Send, G: Gate + Sync>(
    rt: &R,
    alloc: Global,
    setting: &'a Setting,
    workers: u32,
    lanes: &'a Lanes<Piece>,
    seats: Vec<LaneSeat<Piece>>,
    publisher: P,
    gate: &G,
) -> (P, Vec<LaneSeat<Piece>>, Result<Counts, CrewFault>)
    requires lawful { LawfulSetting setting.now }
    requires fits { P.fits publisher setting.now.job.program }
    requires some_worker { 0 < workers }
    requires seats { seats.items
        ≡ new_seats lanes.now setting.now (parts setting.now + 1) workers workers }
    ensures came { CameTo P.Publisher setting.now publisher result.0 result.2 }
    ensures left { AreLeft P.Publisher setting.now workers publisher result.0 result.2
        result.1.items }
{
    let count = setting.parts() as usize + 1;
    let Ok(mut room) = Room::make(alloc, workers as usize, count) else {
        return (publisher, Vec::new(alloc), Err(CrewFault::NoMemory));
    };
    let mut team = match benches(alloc, setting, lanes, seats, workers, publisher) {
        Ok(team) => team,
        Err(publisher) => return (publisher, Vec::new(alloc), Err(CrewFault::NoMemory)),
    };
    drive_through(rt, setting, &mut team, gate);
    let Room {
        mut lists,
        mut members,
        mut seats,
    } = room;
    unpack(team, &mut lists, &mut seats);
    take_in_turn(&mut lists, count, &mut members);
    let (publisher, answer) = concluded(alloc, setting, members);
    (publisher, seats, answer)
}

/// A run on one worker, over plain lanes, as [`crew_run_alone`] makes it.
///
/// The setting is lawful and the publisher fits it.
pub fn crew_run_on_one<P: Publisher>(
    alloc: Global,
    setting: &Setting,
    order: u64,
    publisher: P,
) -> (P, Result<Counts, CrewFault>)
    requires lawful { LawfulSetting setting.now }
    requires fits { P.fits publisher setting.now.job.program }
    ensures came { CameTo P.Publisher setting.now publisher result.0 result.1 }
{
    match PlainLanes::make(alloc, setting, actors(setting)) {
        Ok(mut lanes) => crew_run_alone(alloc, setting, order, &mut lanes, publisher),
        Err(NoMemory) => (publisher, Err(CrewFault::NoMemory)),
    }
}

/// Runs the parts of a setting and its publisher on so many workers, 1 to 16, and gives the
/// publisher back, the seats of all workers by rising number, and what all parts gave, or why not
/// all was published. Part p goes to worker p mod `workers`, and so does the publisher, whose
/// number is the number of parts. One worker runs over plain lanes in the order that a number
/// draws, as [`crew_run_alone`] does, and has no seat.
///
/// The setting is lawful and the publisher fits it. With two or more workers the call may wait;
/// what is said here holds where it returns.
pub fn crew_run<R: Threads + Wait + Sync, P: Publisher + Send, G: Gate + Sync>(
    rt: &R,
    alloc: Global,
    setting: &Setting,
    workers: u32,
    order: u64,
    publisher: P,
    gate: &G,
) -> (P, Vec<LaneSeat<Piece>>, Result<Counts, CrewFault>)
    requires lawful { LawfulSetting setting.now }
    requires fits { P.fits publisher setting.now.job.program }
    requires some_worker { 1 ≤ workers }
    requires few_workers { workers ≤ 16 }
    ensures came { CameTo P.Publisher setting.now publisher result.0 result.2 }
    ensures alone { workers ≡ 1 → result.1.items ≡ [] }
    ensures left { 2 ≤ workers → AreLeft P.Publisher setting.now workers publisher result.0
        result.2 result.1.items }
{
    if workers == 1 {
        let (publisher, answer) = crew_run_on_one(alloc, setting, order, publisher);
        return (publisher, Vec::new(alloc), answer);
    }
    match Lanes::make(alloc, setting, actors(setting), workers) {
        Ok((lanes, seats)) => run_on(rt, alloc, setting, workers, &lanes, seats, publisher, gate),
        Err(NoMemory) => (publisher, Vec::new(alloc), Err(CrewFault::NoMemory)),
    }
}
