// Worlds, sight and the order of faults.
use brace_model::{Agent, Fault, Herd, Phase, Program, Value, World, earlier, fault_less, sees};
use brace_num::{Kind, NoMemory};
use brace_test_runs::{agent, program};
use std::alloc::Global;
use std::test::Fail;

/// A class that sees as far as 2.0, with all that a program may have.
const FISH: &str = "class Fish{#visible[2];public state fixed x:rand();public state fixed y:rand();\
 private effect int e:sum;public void run(){if(true){e<-1;}}die when false;spawn when true{\
 y<-rand();}}";

fn standing(alloc: Global, id: u64, x: i64, y: i64) -> Result<Agent, NoMemory> {
    agent(alloc, id, &[Value::Fixed(x), Value::Fixed(y)])
}

/// The program of the class.
fn fish(alloc: Global) -> Result<Program, Fail> {
    let source = program(alloc, FISH)?;
    Ok(source.copy(alloc)?)
}

/// Whether agent 1 sees an agent from the least x and 0.
fn is_seen(alloc: Global, program: &Program, there: &Agent) -> Result<bool, NoMemory> {
    let here = standing(alloc, 1, -9223372036854775808, 0)?;
    let copy = there.copy(alloc)?;
    Ok(sees(program, &here, &copy))
}

/// An agent, by its id and its place, and whether agent 1 sees it from the least x and 0.
const SEEN: [(u64, i64, i64, bool); 5] = [
    (2, -9223372036852775808, 2_000_000, true),
    (2, -9223372036852775807, 0, false),
    (2, 9223372036854775807, 0, false),
    (2, -9223372036854775808, -2_000_001, false),
    (1, -9223372036854775808, 0, false),
];

#[test]
fn sees_up_to_the_range(rt: HostRuntime) -> Result<(), Fail> {
    let program = fish(rt.alloc())?;
    for &(id, x, y, seen) in &SEEN {
        let there = standing(rt.alloc(), id, x, y)?;
        assert_eq!(rt; is_seen(rt.alloc(), &program, &there)?, seen);
    }
    Ok(())
}

/// Two agents without states, by their ids.
fn two_agents(alloc: Global, first: u64, second: u64) -> Result<Herd, NoMemory> {
    let mut agents = Herd::new(alloc);
    agents.push(0, first, &[], &[])?;
    agents.push(0, second, &[], &[])?;
    Ok(agents)
}

/// The ids of two agents, and the next free one.
const RISING: [(u64, u64, Option<u64>); 6] = [
    (3, 5, Some(6)),
    (
        0,
        9_223_372_036_854_775_807,
        Some(9_223_372_036_854_775_808),
    ),
    (0, 9_223_372_036_854_775_808, None),
    (0, 18_446_744_073_709_551_615, None),
    (5, 5, None),
    (5, 3, None),
];

#[test]
fn worlds_rise_to_the_greatest_id(rt: HostRuntime) -> Result<(), Fail> {
    for &(first, second, next) in &RISING {
        let agents = two_agents(rt.alloc(), first, second)?;
        let world = World::from_rising(agents);
        assert_eq!(rt; world.as_ref().map(|world| world.next()), next);
    }
    Ok(())
}

/// How many agents the copy of a world has, and its next free id.
fn copied(alloc: Global, world: &World) -> Result<(usize, u64), NoMemory> {
    let copy = world.copy(alloc)?;
    Ok((copy.agents().len(), copy.next()))
}

/// A next free id, and whether two agents, 3 and 5, have a world with it.
const FREE: [(u64, bool); 4] = [
    (5, false),
    (6, true),
    (9_223_372_036_854_775_808, true),
    (9_223_372_036_854_775_809, false),
];

#[test]
fn worlds_have_a_free_id(rt: HostRuntime) -> Result<(), Fail> {
    for &(next, is_world) in &FREE {
        let agents = two_agents(rt.alloc(), 3, 5)?;
        let found = match World::with_next(agents, next) {
            Some(world) => Some(copied(rt.alloc(), &world)?),
            None => None,
        };
        let wanted = if is_world { Some((2, next)) } else { None };
        assert_eq!(rt; found, wanted);
    }
    Ok(())
}

const LATE: Fault = Fault {
    tick: 4,
    phase: Phase::Update,
    agent: 1,
    site: 0,
    outer: None,
    inner: None,
    kind: Kind::Overflow,
};

const EARLY: Fault = Fault {
    phase: Phase::Query,
    agent: 9,
    outer: Some(0),
    ..LATE
};

const FIRST: Fault = Fault {
    outer: None,
    kind: Kind::NegRoot,
    ..EARLY
};

const LAST: Fault = Fault {
    phase: Phase::Birth,
    agent: 0,
    ..LATE
};

/// Two faults, whether the first comes before the second, and the second before the first, and
/// which of them is the earlier.
const FAULTS: [(Fault, Fault, bool, bool, Fault); 4] = [
    (LATE, EARLY, false, true, EARLY),
    (FIRST, EARLY, true, false, FIRST),
    (FIRST, FIRST, false, false, FIRST),
    (LATE, LAST, true, false, LATE),
];

#[test]
fn queries_fault_first_and_births_last(rt: HostRuntime) {
    for &(a, b, less, greater, first) in &FAULTS {
        let found = (fault_less(&a, &b), fault_less(&b, &a), earlier(a, b));
        assert_eq!(rt; found, (less, greater, first));
    }
}
