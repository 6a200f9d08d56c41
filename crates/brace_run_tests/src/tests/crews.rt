// What publishers make of what they are shown, and runs of small crews to their end.
ghost use Rattle.std.specs.Prelude.{◌≡◌, ◌≤◌, ◌+◌, IfOk};
ghost use Rattle.brace_io.specs.Shelves.{Idle};
ghost use Rattle.brace_lanes.specs.Seats.{new_seats};
ghost use Rattle.brace_pieces.specs.Settings.{LawfulSetting, parts};

use brace_crew::{Bench, CrewFault, Drive, benches, crew_run, crew_run_linked};
use brace_desk::{FilePublisher, Keeper, PubFault, Publisher, ShelfKeeper, SumPublisher};
use brace_io::{MemShelf, MemSink, OpenGate, Sink};
use brace_lanes::{LaneSeat, Lanes};
use brace_model::{Herd, Value};
use brace_num::NoMemory;
use brace_pieces::{Counts, Piece, Setting, Shown};
use brace_test_runs::{Run, agent, setting};
use brace_wire::{Fate, WireLanes};
use std::alloc::Global;
use std::sync::Wait;
use std::test::Fail;
use std::thread::Threads;

/// A run of agents that rest, from tick 0 to tick 4 in epochs of three ticks, of which every
/// second tick is published.
const RESTING: Run = Run {
    script: "class A{public state fixed x;public state fixed y;}",
    agents: "",
    plan: "at 0 x y\n",
    ticks: (0, 4),
    epoch: 3,
    every: 2,
    invert: false,
};

/// The worlds of these ticks, each of one agent that stands half a unit for each tick along x.
fn shown(alloc: Global, ticks: &[u32]) -> Result<Vec<Shown>, NoMemory> {
    let mut worlds = Vec::new(alloc);
    for tick in ticks {
        let place = [Value::Fixed(i64::from(*tick) * 500_000), Value::Fixed(-1)];
        let one = [agent(alloc, 7, &place)?];
        worlds.push(Shown {
            tick: u64::from(*tick),
            agents: Herd::of(alloc, &one)?,
            next: 8,
        })?;
    }
    Ok(worlds)
}

const AT_3: &[u8] = b"brace checkpoint 1\ntick 3\nseed 5\nclass A x:fixed y:fixed\nA,7,1.500000,\
 -0.000001\nend 1\n";

const AT_4: &[u8] = b"brace checkpoint 1\ntick 4\nseed 5\nclass A x:fixed y:fixed\nA,7,2.000000,\
 -0.000001\nend 1\n";

const ROWS_0_2: &[u8] = b"0,A,7,0.000000,-0.000001\n2,A,7,1.000000,-0.000001\n";

const ROW_2: &[u8] = b"2,A,7,1.000000,-0.000001\n";

const ROW_4: &[u8] = b"4,A,7,2.000000,-0.000001\n";

/// What a publisher is asked: whether it saves and whether its run is fresh, the tick and those
/// that it is shown, and the numbers of the calls of its sink and shelf that fail (0 for none).
type Asked<'a> = (bool, bool, u64, &'a [u32], u64, u64);

/// What comes of it: its answer, the rows, and the files of the ticks 3 and 4.
type Came<'a> = (
    Result<(), PubFault>,
    &'a [u8],
    Option<&'a [u8]>,
    Option<&'a [u8]>,
);

const CASES: [(Asked, Came); 8] = [
    // Tick 3 is an end and not published.
    (
        (true, true, 3, &[0, 2, 3], 0, 0),
        (Ok(()), ROWS_0_2, Some(AT_3), None),
    ),
    // A run that goes on does not publish its first tick.
    (
        (false, false, 3, &[0, 2, 3], 0, 0),
        (Ok(()), ROW_2, None, None),
    ),
    (
        (true, true, 4, &[4], 0, 0),
        (Ok(()), ROW_4, None, Some(AT_4)),
    ),
    // The tick of a fault is no end.
    (
        (true, true, 2, &[0, 2], 0, 0),
        (Ok(()), ROWS_0_2, None, None),
    ),
    // The fault of a tick whose world was shown before.
    ((true, true, 3, &[], 0, 0), (Ok(()), b"", None, None)),
    (
        (true, true, 3, &[2, 3], 0, 2),
        (Err(PubFault::Save(3)), ROW_2, Some(b""), None),
    ),
    (
        (true, true, 3, &[2, 3], 1, 0),
        (Err(PubFault::Write), b"", None, None),
    ),
    // The flush fails.
    (
        (true, true, 3, &[2, 3], 2, 0),
        (Err(PubFault::Write), ROW_2, None, None),
    ),
];

/// The answer of a new publisher, by what it saves and whether it is fresh, to one call, in which
/// it is shown worlds up to a tick.
fn shown_to<'x, K: Keeper, O: Sink>(
    alloc: Global,
    setting: &Setting,
    out: &'x mut O,
    keeper: &'x mut K,
    manner: (&'x Option<&'x str>, bool),
    call: (u64, &[Shown]),
) -> Result<(), PubFault>
    requires { LawfulSetting setting.now }
{
    let (save, fresh) = manner;
    let (tick, worlds) = call;
    let mut publisher = FilePublisher {
        out,
        keeper,
        save,
        fresh,
    };
    publisher.epoch(alloc, setting, tick, worlds)
}

/// A shelf with room for the files of the ticks 3 and 4, and the numbers of its calls that fail.
fn prepared(alloc: Global, fails: Vec<u64>) -> Result<MemShelf, Fail>
    ensures { IfOk result (λ shelf. shelf.stage ≡ Idle) }
{
    let mut shelf = MemShelf::make(alloc, fails);
    shelf.prepare("c.3", 999)?;
    shelf.prepare("c.4", 999)?;
    Ok(shelf)
}

/// Whether this comes of what a publisher is asked.
fn comes(alloc: Global, setting: &Setting, asked: &Asked, came: &Came) -> Result<bool, Fail>
    requires { LawfulSetting setting.now }
{
    let (saves, fresh, tick, ticks, out_fails, shelf_fails) = *asked;
    let (wanted, rows, at_3, at_4) = *came;
    let worlds = shown(alloc, ticks)?;
    let mut out = MemSink::make(alloc, 999, vec![in alloc; out_fails]?)?;
    let mut shelf = prepared(alloc, vec![in alloc; shelf_fails]?)?;
    let save = if saves { Some("c") } else { None };
    let mut keeper = ShelfKeeper { shelf: &mut shelf };
    let call = (tick, worlds.as_slice());
    let answer = shown_to(alloc, setting, &mut out, &mut keeper, (&save, fresh), call);
    let is_told = answer == wanted && out.bytes() == rows;
    Ok(is_told && shelf.file("c.3") == at_3 && shelf.file("c.4") == at_4)
}

#[test]
fn publishes_rows_and_saves_ends(rt: HostRuntime) -> Result<(), Fail> {
    let setting = setting(rt.alloc(), &RESTING)?;
    for (number, (asked, came)) in CASES.iter().enumerate() {
        assert!(rt; comes(rt.alloc(), &setting, asked, came)?, "case {number}");
    }
    Ok(())
}

/// The sums of the world that is shown last, before and once the worlds of these ticks are shown.
const SUMS: [((i128, i128), &[u32], (i128, i128)); 4] = [
    ((0, 0), &[], (0, 0)),
    ((0, 0), &[1, 2], (1_000_000, -1)),
    ((1_000_000, -1), &[], (1_000_000, -1)),
    ((1_000_000, -1), &[3], (1_500_000, -1)),
];

#[test]
fn sums_up_the_last_world(rt: HostRuntime) -> Result<(), Fail> {
    let alloc = rt.alloc();
    let setting = setting(alloc, &RESTING)?;
    let mut publisher = SumPublisher::make();
    for &(first, ticks, last) in &SUMS {
        let worlds = shown(alloc, ticks)?;
        let before = publisher.sums();
        let answer = publisher.epoch(alloc, &setting, 3, worlds.as_slice());
        assert!(rt; (before, answer, publisher.sums()) == (first, Ok(()), last));
    }
    Ok(())
}

/// A run of four ticks without agents, over a plane in two parts.
const EMPTY: Run = Run {
    plan: "at 0 x 1 y\nat 3 x 2 y\n",
    ..RESTING
};

const EMPTY_AT_3: &[u8] = b"brace checkpoint 1\ntick 3\nseed 5\nclass A x:fixed y:fixed\nend 0\n";

const EMPTY_AT_4: &[u8] = b"brace checkpoint 1\ntick 4\nseed 5\nclass A x:fixed y:fixed\nend 0\n";

/// Runs a setting on 1 to 4 workers, and gives its publisher back with how many seats there were
/// and what it came to.
fn run<R: Threads + Wait + Sync, P: Publisher + Send>(
    rt: &R,
    alloc: Global,
    setting: &Setting,
    workers: u32,
    publisher: P,
) -> (P, usize, Result<Counts, CrewFault>)
    requires lawful { LawfulSetting setting.now }
    requires fits { P.fits publisher setting.now.job.program }
    requires some { 1 ≤ workers }
    requires few { workers ≤ 4 }
{
    let order = u64::from(workers);
    let (publisher, seats, came) = crew_run(
        rt, alloc, setting, workers, order, publisher, &OpenGate,
    );
    (publisher, seats.len(), came)
}

/// Whether a run without agents on 1 to 4 workers comes to its end without rows, with the files of
/// both ends.
fn comes_to_its_end<R: Threads + Wait + Sync>(
    rt: &R,
    alloc: Global,
    workers: u32,
) -> Result<bool, Fail>
    requires some { 1 ≤ workers }
    requires few { workers ≤ 4 }
{
    let setting = setting(alloc, &EMPTY)?;
    let mut out = MemSink::make(alloc, 999, Vec::new(alloc))?;
    let mut shelf = prepared(alloc, Vec::new(alloc))?;
    let save = Some("c");
    let mut keeper = ShelfKeeper { shelf: &mut shelf };
    let publisher = FilePublisher {
        out: &mut out,
        keeper: &mut keeper,
        save: &save,
        fresh: true,
    };
    let (_, seats, came) = run(rt, alloc, &setting, workers, publisher);
    let some = if workers == 1 { 0 } else { workers as usize };
    let is_run = seats == some && came == Ok(Counts::none()) && out.bytes().is_empty();
    let is_saved = shelf.file("c.3") == Some(EMPTY_AT_3);
    Ok(is_run && is_saved && shelf.file("c.4") == Some(EMPTY_AT_4))
}

#[test]
fn runs_to_the_end_and_saves_each_end(rt: HostRuntime) -> Result<(), Fail> {
    for workers in 1..5 {
        assert!(rt;
            comes_to_its_end(&rt, rt.alloc(), workers)?,
            "{workers} workers"
        );
    }
    Ok(())
}

/// What a run comes to over links on which a piece is lost twice, then comes late, and then comes
/// twice, and how many rounds were made.
fn run_linked(alloc: Global, setting: &Setting) -> Result<(Result<Counts, CrewFault>, u64), Fail>
    requires { LawfulSetting setting.now }
{
    let fates = vec![in alloc; Fate::Lose, Fate::Lose, Fate::After, Fate::Twice]?;
    let mut lanes = WireLanes::make(alloc, setting, setting.parts() + 1, fates)?;
    let (_, came) = crew_run_linked(alloc, setting, 3, &mut lanes, SumPublisher::make());
    Ok((came, lanes.rounds()))
}

#[test]
fn runs_to_the_end_over_links_that_lose(rt: HostRuntime) -> Result<(), Fail> {
    let setting = setting(rt.alloc(), &EMPTY)?;
    let (came, rounds) = run_linked(rt.alloc(), &setting)?;
    assert!(rt; came == Ok(Counts::none()) && 4 <= rounds);
    Ok(())
}

/// The benches of a run on two workers.
fn two_benches<'a>(
    alloc: Global,
    setting: &'a Setting,
    lanes: &'a Lanes<Piece>,
    seats: Vec<LaneSeat<Piece>>,
) -> Result<(Bench<'a, SumPublisher>, Bench<'a, SumPublisher>), Fail>
    requires lawful { LawfulSetting setting.now }
    requires seats { seats.items ≡ new_seats lanes.now setting.now (parts setting.now + 1) 2 2 }
{
    let Ok(mut both) = benches(alloc, setting, lanes, seats, 2, SumPublisher::make()) else {
        return Err("no benches".into());
    };
    match (both.pop(), both.pop()) {
        (Some(second), Some(first)) => Ok((first, second)),
        _ => Err("no two benches".into()),
    }
}

/// What driving the first of two benches comes to, and whether both end that are driven by turns.
fn driven(alloc: Global, setting: &Setting) -> Result<(Drive, bool), Fail>
    requires lawful { LawfulSetting setting.now }
{
    let (lanes, seats) = Lanes::make(alloc, setting, setting.parts() + 1, 2)?;
    let (mut first, mut second) = two_benches(alloc, setting, &lanes, seats)?;
    let alone = first.drive(&OpenGate, 3, u64::MAX);
    for _ in 0..1000 {
        let one = first.drive(&OpenGate, 3, u64::MAX);
        let two = second.drive(&OpenGate, 3, u64::MAX);
        if one == Drive::Complete && two == Drive::Complete {
            let (members, _) = first.into_members();
            return Ok((alone, members.len() == 2));
        }
    }
    Ok((alone, false))
}

#[test]
fn a_bench_alone_runs_dry_and_two_by_turns_end(rt: HostRuntime) -> Result<(), Fail> {
    let setting = setting(rt.alloc(), &EMPTY)?;
    let (alone, ended) = driven(rt.alloc(), &setting)?;
    assert!(rt; alone == Drive::Dry && ended);
    Ok(())
}
