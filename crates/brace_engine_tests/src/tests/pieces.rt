// Which agents are shown to parts and belong to them, and the turns of actors.
ghost use Rattle.std.specs.Prelude.{◌+◌, ◌<◌, IfOk};
ghost use Rattle.brace_pieces.specs.Settings.{LawfulSetting, parts};

use brace_core::Turn;
use brace_model::{Agent, Value};
use brace_num::{List, NoMemory};
use brace_pieces::{Course, Setting, border_of, moves_of};
use brace_test_runs::{Run, agent, setting};
use std::alloc::Global;
use std::test::Fail;

/// Agents by rising number, at these places along x in millionths.
fn agents_at(alloc: Global, xs: &[i64]) -> Result<Vec<Agent>, NoMemory> {
    let mut agents = Vec::new(alloc);
    for (id, x) in xs.iter().enumerate() {
        agents.push(agent(alloc, id as u64, &[Value::Fixed(*x), Value::Fixed(0)])?)?;
    }
    Ok(agents)
}

/// A run from tick 1 to tick 3 over a plane that is cut by a plan, in epochs of two ticks; agents
/// see 2.0 far, and rest.
fn cut_by(alloc: Global, plan: &str) -> Result<Setting, &'static str>
    ensures { IfOk result LawfulSetting }
{
    let run = Run {
        script: "class A{#visible[2];public state fixed x;public state fixed y;}",
        agents: "",
        plan,
        ticks: (1, 3),
        epoch: 2,
        every: 1,
        invert: false,
    };
    setting(alloc, &run)
}

/// The numbers of the agents of two lists.
fn told(alloc: Global, lists: [&List<Agent>; 2]) -> Result<String, NoMemory> {
    let mut text = String::new(alloc);
    for agents in lists {
        for agent in agents.as_slice() {
            text.push_str(format!(in alloc; "{} ", agent.id)?.as_str())?;
        }
        text.push_str("/ ")?;
    }
    Ok(text)
}

/// Which agents are shown to a part at a tick, and which belong to it.
fn gone_to(
    alloc: Global,
    setting: &Setting,
    tick: u64,
    agents: &[Agent],
    to: u32,
) -> Result<String, NoMemory>
    requires lawful { LawfulSetting setting.now }
    requires is_part { to < parts setting.now }
{
    let border = border_of(alloc, setting, tick, agents, to)?;
    let moves = moves_of(alloc, setting, tick, agents, to)?;
    told(alloc, [&border, &moves])
}

/// A plan, a tick, a part, agents along x, and which of these are shown to the part and belong to
/// it.
type Case<'a> = (&'a str, u64, u32, &'a [i64], &'a str);

const CASES: [Case; 7] = [
    // An agent on the cut belongs to its higher side; one exactly 2.0 away is shown.
    (
        "at 0 x 2.0 y\n",
        0,
        1,
        &[0, -1, 2_000_000, 2_000_001],
        "0 2 3 / 2 3 / ",
    ),
    (
        "at 0 x 2.0 y\n",
        0,
        0,
        &[0, 1_999_999, 2_000_000, 4_000_000],
        "0 1 2 / 0 1 / ",
    ),
    // Grid points on both sides of a cut are one millionth apart.
    (
        "at 0 x 2.0 y\n",
        0,
        0,
        &[3_999_999, 4_000_000, 2_000_000],
        "0 2 / / ",
    ),
    // Other cuts hold from tick 2 on.
    (
        "at 0 x 1 y\nat 2 x -1 y\n",
        1,
        0,
        &[0, -1_000_000],
        "0 1 / 0 1 / ",
    ),
    (
        "at 0 x 1 y\nat 2 x -1 y\n",
        2,
        0,
        &[0, -1_000_000],
        "0 1 / / ",
    ),
    (
        "at 0 x 1 y\nat 2 x -1 y\n",
        3,
        1,
        &[0, -1_000_000],
        "0 1 / 0 1 / ",
    ),
    // The ends of 64 bits.
    ("at 0 x y 0\n", 0, 0, &[i64::MIN, i64::MAX], "0 1 / / "),
];

#[test]
fn agents_go_to_their_parts(rt: HostRuntime) -> Result<(), Fail> {
    let alloc = rt.alloc();
    for &(plan, tick, to, xs, want) in &CASES {
        let setting = cut_by(alloc, plan)?;
        setting.numbers_fit();
        if to >= setting.parts() {
            return Err("no part".into());
        }
        let agents = agents_at(alloc, xs)?;
        let found = gone_to(alloc, &setting, tick, agents.as_slice(), to)?;
        assert_eq!(rt; found.as_str(), want);
    }
    Ok(())
}

const WORK: u32 = 20;

/// A plan, an actor, and its turns: a put to q is q, and a take from q is 10 + q.
type Walk<'a> = (&'a str, u32, &'a [u32]);

const WALKS: [Walk; 3] = [
    // Tick 1 is shown at 2, an end; other cuts hold from 2 on; tick 2 is shown at 3, the last.
    (
        "at 0 x 1 y\nat 2 x -1 y\n",
        0,
        &[
            1, 11, WORK, 1, 11, WORK, 1, 11, WORK, 2, 12, WORK, 1, 11, WORK, 1, 11, WORK, 1, 11,
            WORK, 1, 11, WORK, 2, 12, WORK,
        ],
    ),
    // The publisher meets each part where all is shown. No cuts are new after the last tick.
    (
        "at 0 x 1 y\nat 4 x 2 y\n",
        2,
        &[
            WORK, WORK, WORK, 0, 1, 10, 11, WORK, WORK, WORK, WORK, 0, 1, 10, 11, WORK,
        ],
    ),
    // Parts that are far apart do not meet, and none is handed to one whose area stays apart.
    (
        "at 0 x 0 9 y\nat 2 x 0 5 y\n",
        0,
        &[
            1, 11, WORK, 1, 11, WORK, 1, 11, WORK, 3, 13, WORK, WORK, 1, 11, WORK, 1, 11, WORK, 1,
            11, WORK, 3, 13, WORK,
        ],
    ),
];

/// All turns of an actor, at most 100.
fn turns_of(alloc: Global, setting: &Setting, actor: u32) -> Result<Vec<u32>, NoMemory>
    requires lawful { LawfulSetting setting.now }
    requires is_actor { actor < parts setting.now + 1 }
{
    let mut course = Course::make(alloc, setting, actor)?;
    let mut turns = Vec::new(alloc);
    for _ in 0..100 {
        match course.turn() {
            Turn::Put(name) => {
                turns.push(name.to)?;
                course.go_on();
            }
            Turn::Take(name) => {
                turns.push(name.from.saturating_add(10))?;
                course.go_on();
            }
            Turn::Work => {
                turns.push(WORK)?;
                course.go_on();
            }
            Turn::Done => return Ok(turns),
        }
    }
    Ok(turns)
}

#[test]
fn actors_make_their_turns(rt: HostRuntime) -> Result<(), Fail> {
    let alloc = rt.alloc();
    for &(plan, actor, wanted) in &WALKS {
        let setting = cut_by(alloc, plan)?;
        if actor > setting.parts() {
            return Err("no actor".into());
        }
        let turns = turns_of(alloc, &setting, actor)?;
        assert_eq!(rt; turns.as_slice(), wanted);
    }
    Ok(())
}
