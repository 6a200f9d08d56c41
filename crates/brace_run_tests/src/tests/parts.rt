// What parts own and show, and that those which exchange pieces come to the worlds of the plain
// step.
ghost use Rattle.std.specs.Prelude.{◌≡◌, ◌<◌, IfOk};
ghost use Rattle.brace_pieces.specs.Settings.{LawfulSetting, cuts_of, parts};
ghost use Rattle.brace_herd.specs.Works.{own_under};

use brace_core::{Actor, Turn};
use brace_crew::{CrewFault, crew_run_on_one};
use brace_desk::{FilePublisher, ShelfKeeper};
use brace_eval::{StepFault, plain_step};
use brace_io::{MemShelf, MemSink};
use brace_model::{Fault, Herd};
use brace_num::NoMemory;
use brace_part::Part;
use brace_pieces::{Setting, owned_of};
use brace_rows::print_tick;
use brace_test_runs::{Run, setting};
use std::alloc::Global;
use std::test::Fail;

/// Agents that see 2.0 far walk to the right by 0.75 a tick, and tell by how many they were seen.
const WALKING: &str = "class F{#visible[2];#reach[1];public state fixed x:x+0.75;public state \
 fixed y;public state int n:c;public effect int c:count;public void run(){foreach(F p:Extent<F>){\
 p.c<-true;}}}";

/// Agents that walk so count their ticks instead. In its second tick, and where two see it, one has
/// a child behind it; in its fifth, and where five see it, one dies.
const BEARING: &str = "class F{#visible[2];#reach[1];public state fixed x:x+0.75;public state \
 fixed y;public state int n:n+1;public effect int c:count;public void run(){foreach(F p:Extent<F>){\
 p.c<-true;}}die when n>3||c>4;spawn when n==1||c==2{x<-x-1.0;n<-0;}}";

const WALKERS: &str = "F,1,0,0,0\nF,2,1.5,0,0\nF,3,1.999999,-1,0\nF,5,3,0.5,0\nF,8,-1,-2,0\nF,9,\
 0.9,0.01,0\n";

/// The same behind one whose id is the greatest but six.
const LATE_WALKERS: &str = "F,1,0,0,0\nF,2,1.5,0,0\nF,3,1.999999,-1,0\nF,5,3,0.5,0\nF,8,-1,-2,\
 0\nF,9223372036854775801,0.9,0.01,0\n";

/// A run of five ticks over a plane that is cut by a plan, in epochs of two ticks.
fn walk(
    alloc: Global,
    script: &str,
    agents: &str,
    plan: &str,
    invert: bool,
) -> Result<Setting, &'static str>
    ensures lawful { IfOk result LawfulSetting }
{
    let run = Run {
        script,
        agents,
        plan,
        ticks: (0, 5),
        epoch: 2,
        every: 1,
        invert,
    };
    setting(alloc, &run)
}

/// The agents of a part in the first world.
#[tactic(auto, using(brace_part::proofs::StartLemmas::own_of))]
fn own(alloc: Global, setting: &Setting, p: u32) -> Result<Herd, NoMemory>
    requires lawful { LawfulSetting setting.now }
    ensures own { IfOk result (λ own. own ≡ own_under setting.now p
        (cuts_of setting.now setting.now.job.first) setting.now.job.first) }
{
    let agents = setting.job.start.agents();
    owned_of(alloc, setting, setting.job.first, agents, p)
}

/// The ids of a part's agents.
fn ids_of(alloc: Global, part: &Part) -> Result<String, NoMemory> {
    let own = part.owned(alloc)?;
    let mut text = String::new(alloc);
    for agent in own.as_slice() {
        text.push_str(format!(in alloc; "{} ", agent.id)?.as_str())?;
    }
    Ok(text)
}

/// What a part says of itself before its first turn: its agents, its next turn, what it gave, how
/// many worlds it shows, and whether it goes no further.
fn told(alloc: Global, part: &Part) -> Result<String, NoMemory> {
    let put = match part.next(u64::MAX) {
        Turn::Put(name) => name.to,
        Turn::Take(_) | Turn::Work | Turn::Done => 99,
    };
    let (border, shown) = (part.counts().border, part.shown().len());
    let ends = if part.cause().is_some() {
        " and ends"
    } else {
        ""
    };
    let ids = ids_of(alloc, part)?;
    Ok(format!(in alloc; "{ids}to {put} gave {border} shows {shown}{ends}")?)
}

/// What a part of a run says of itself.
fn told_of(alloc: Global, setting: &Setting, p: u32) -> Result<String, NoMemory>
    requires lawful { LawfulSetting setting.now }
    requires is_part { p < parts setting.now }
{
    let own = own(alloc, setting, p)?;
    let part = Part::make(alloc, setting, p, own)?;
    told(alloc, &part)
}

/// A plan, a part, and what it says of itself.
const CASES: [(&str, u32, &str); 6] = [
    ("at 0 x 1 y\n", 0, "1 8 9 to 1 gave 3 shows 1"),
    ("at 0 x 1 y\n", 1, "2 3 5 to 0 gave 2 shows 1"),
    ("at 0 x 1 y 0\n", 0, "8 to 1 gave 3 shows 1"),
    ("at 0 x 1 y 0\n", 1, "3 to 0 gave 3 shows 1"),
    ("at 0 x 1 y 0\n", 2, "1 9 to 0 gave 6 shows 1"),
    ("at 0 x 1 y 0\n", 3, "2 5 to 0 gave 4 shows 1"),
];

#[test]
fn parts_own_their_agents_and_show_them_to_others(rt: HostRuntime) -> Result<(), Fail> {
    let alloc = rt.alloc();
    for invert in [false, true] {
        for &(plan, p, want) in &CASES {
            let setting = walk(alloc, WALKING, WALKERS, plan, invert)?;
            if p >= setting.parts() {
                return Err("no part".into());
            }
            let found = told_of(alloc, &setting, p)?;
            assert_eq!(rt; found.as_str(), want);
        }
    }
    Ok(())
}

/// The rows of the worlds of a walk by the plain step, up to the tick of a fault, and that fault.
fn plain_walk(alloc: Global, setting: &Setting) -> Result<(Vec<u8>, Option<Fault>), Fail>
    requires { LawfulSetting setting.now }
{
    let mut rows = Vec::new(alloc);
    let mut now = setting.job.start.copy(alloc)?;
    for tick in 0..5 {
        print_tick(&mut rows, &setting.job.program, tick, &now)?;
        match plain_step(alloc, &setting.job, tick, &now) {
            Ok(next) => now = next,
            Err(StepFault::Fault(fault)) => return Ok((rows, Some(fault))),
            Err(StepFault::NoMemory) => return Err("no memory".into()),
        }
    }
    print_tick(&mut rows, &setting.job.program, 5, &now)?;
    Ok((rows, None))
}

/// The rows of a walk by its parts, whose turns are in the order of a number, and its fault.
fn walk_in_parts(
    alloc: Global,
    setting: &Setting,
    order: u64,
) -> Result<(Vec<u8>, Option<Fault>), Fail>
    requires { LawfulSetting setting.now }
{
    let mut out = MemSink::make(alloc, 9999, Vec::new(alloc))?;
    let mut shelf = MemShelf::make(alloc, Vec::new(alloc));
    let mut keeper = ShelfKeeper { shelf: &mut shelf };
    let publisher = FilePublisher {
        out: &mut out,
        keeper: &mut keeper,
        save: &None,
        fresh: true,
    };
    let (_, came) = crew_run_on_one(alloc, setting, order, publisher);
    let mut rows = Vec::new(alloc);
    rows.extend_from_slice(out.bytes())?;
    match came {
        Ok(_) => Ok((rows, None)),
        Err(CrewFault::Fault(fault)) => Ok((rows, Some(fault))),
        Err(_) => Err("no run".into()),
    }
}

/// Whether the parts of a walk come to the rows of the plain step and to its fault, and there is
/// one where there is to be one.
fn is_as_plain(alloc: Global, setting: &Setting, order: u64, ends: bool) -> Result<bool, Fail>
    requires { LawfulSetting setting.now }
{
    let (rows, fault) = walk_in_parts(alloc, setting, order)?;
    let (wanted, first) = plain_walk(alloc, setting)?;
    Ok(rows.as_slice() == wanted.as_slice() && fault == first && fault.is_some() == ends)
}

/// Two parts and four, each cut anew at tick 2.
const PLANS: [&str; 2] = [
    "at 0 x 1 y\nat 2 x 2.5 y\n",
    "at 0 x 1 y 0\nat 2 x 2.25 y -1\n",
];

/// Scripts, their agents, and whether a birth is at fault: the last agent has an id so great that
/// those of its children end.
const WALKS: [(&str, &str, bool); 3] = [
    (WALKING, WALKERS, false),
    (BEARING, WALKERS, false),
    (BEARING, LATE_WALKERS, true),
];

#[test]
fn parts_come_to_the_worlds_of_the_plain_step(rt: HostRuntime) -> Result<(), Fail> {
    let alloc = rt.alloc();
    for &(script, agents, ends) in &WALKS {
        for &plan in &PLANS {
            for invert in [false, true] {
                for order in [0, 1, 7] {
                    let setting = walk(alloc, script, agents, plan, invert)?;
                    assert!(rt; is_as_plain(alloc, &setting, order, ends)?);
                }
            }
        }
    }
    Ok(())
}
