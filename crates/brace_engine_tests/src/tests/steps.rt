// Expressions, what agents hear, and ticks with deaths and births.
ghost use Rattle.std.specs.Prelude.{IfOk};
ghost use Rattle.brace_model.specs.Lawful.{LawfulProgram};
ghost use Rattle.brace_model.specs.World.{RisesById};

use super::exprs::{binary, int};
use brace_draw::Drawer;
use brace_eval::{Heard, eval, plain_step};
use brace_model::{Agent, BinOp, Env, Expr, Herd, Job, Program, Stop, Ty, Value, Who, World};
use brace_num::{Kind, NoMemory};
use brace_test_runs::{agent, agents, program};
use std::alloc::Global;
use std::test::Fail;

const DIV_ZERO: Stop = Stop {
    site: 3,
    kind: Kind::DivZero,
};

/// A dividend, the place of the state that divides it, and the quotient.
const QUOTIENTS: [(i64, u32, Result<Value, Stop>); 4] = [
    (7, 0, Ok(Value::Int(-3))),
    (i64::MIN, 0, Ok(Value::Int(4_611_686_018_427_387_904))),
    (7, 9, Err(DIV_ZERO)),
    (i64::MIN, 9, Err(DIV_ZERO)),
];

#[test]
fn divides_by_a_state(rt: HostRuntime) -> Result<(), Fail> {
    let alloc = rt.alloc();
    let this = agent(alloc, 7, &[Value::Int(-2)])?;
    let env = Env {
        tick: 0,
        this: &this,
        outer: None,
        inner: None,
        locals: &[],
        totals: &[],
    };
    let mut drawer = Drawer::make(0);
    for &(dividend, place, quotient) in &QUOTIENTS {
        let state = Expr::Field(Who::This, place);
        let e = binary(alloc, BinOp::Div, int(dividend), state)?;
        assert!(rt; eval(&e, &env, &mut drawer) == quotient);
    }
    Ok(())
}

/// A row of an agent: its id, its place along x in millionths, and its count.
type Row = (u64, i64, i64);

fn agents_of(alloc: Global, rows: &[Row]) -> Result<Herd, NoMemory> {
    let mut agents = Herd::new(alloc);
    for (id, x, count) in rows {
        agents.push(0, *id, &[Ty::Fixed, Ty::Fixed, Ty::Int], &[*x, 0, *count])?;
    }
    Ok(agents)
}

/// The rows of a world with its next free id.
fn rows_of(alloc: Global, world: &World) -> Result<String, NoMemory> {
    let mut text = String::new(alloc);
    let agents = world.agents().agents()?;
    for a in &agents {
        text.push_str(format!(in alloc; "{} {:?}, ", a.id, a.states.as_slice())?.as_str())?;
    }
    text.push_str(format!(in alloc; "next {}", world.next())?.as_str())?;
    Ok(text)
}

/// A run of one tick without agents.
fn job_of(alloc: Global, program: Program) -> Result<Job, Fail>
    requires { LawfulProgram program }
    ensures { IfOk result (λ job. LawfulProgram job.program) }
{
    let Some(start) = World::from_rising(Herd::new(alloc)) else {
        return Err("no world".into());
    };
    Ok(Job {
        program,
        seed: 0,
        first: 0,
        last: 1,
        every: 1,
        start,
    })
}

/// The rows of the next world, or the fault.
fn stepped(alloc: Global, program: Program, rows: &[Row], next: u64) -> Result<String, Fail>
    requires { LawfulProgram program }
{
    let job = job_of(alloc, program)?;
    let Some(world) = World::with_next(agents_of(alloc, rows)?, next) else {
        return Err("no world".into());
    };
    match plain_step(alloc, &job, 0, &world) {
        Ok(next) => Ok(rows_of(alloc, &next)?),
        Err(e) => Ok(format!(in alloc; "{:?}", e)?),
    }
}

/// An agent counts ticks, and dies at a count of 2.
const MORTAL: &str = "class B{#reach[1];public state fixed x;public state fixed y;public state int \
 a:a+1;die when a>=2;}";

/// An agent moves by 50.0, and dies to the right of 50.0.
const WALKING: &str = "class B{#reach[100];public state fixed x:x+50.0;public state fixed y;public \
 state int a;die when x>50.0;}";

/// An agent dies where 1 / count is above 0.
const DIVIDING: &str = "class B{#reach[1];public state fixed x;public state fixed y;public state \
 int a:a+1;die when 1/a>0;}";

/// A new agent has a child to its right, whose count is 7.
const BEARING: &str = "class B{#reach[1];public state fixed x;public state fixed y;public state \
 int a:a+1;spawn when a==0{x<-x+5.0;a<-7;}}";

/// A new agent has a child and dies.
const PASSING: &str = "class B{#reach[1];public state fixed x;public state fixed y;public state \
 int a:a+1;die when a==0;spawn when a==0{}}";

/// A script, the rows of agents, the next free id, and what a tick makes of them.
type Step<'a> = (&'a str, &'a [Row], u64, &'a str);

const STEPS: [Step; 9] = [
    (
        MORTAL,
        &[(1, 0, 0)],
        2,
        "1 [Fixed(0), Fixed(0), Int(1)], next 2",
    ),
    (
        MORTAL,
        &[(1, 0, 1)],
        2,
        "1 [Fixed(0), Fixed(0), Int(2)], next 2",
    ),
    (MORTAL, &[(1, 0, 2)], 2, "next 2"),
    (
        WALKING,
        &[(1, 5_000_000, 0)],
        2,
        "1 [Fixed(55000000), Fixed(0), Int(0)], next 2",
    ),
    (WALKING, &[(1, 55_000_000, 0)], 2, "next 2"),
    (
        DIVIDING,
        &[(1, 0, 0)],
        2,
        "Fault(Fault { tick: 0, phase: Update, agent: 1, site: 1, outer: None, inner: None, kind: \
         DivZero })",
    ),
    (
        BEARING,
        &[(4, 0, 0), (9, 2_000_000, 0)],
        10,
        "4 [Fixed(0), Fixed(0), Int(1)], 9 [Fixed(2000000), Fixed(0), Int(1)], 10 [Fixed(1000000), \
         Fixed(0), Int(7)], 11 [Fixed(3000000), Fixed(0), Int(7)], next 12",
    ),
    (
        BEARING,
        &[(9_223_372_036_854_775_807, 0, 0)],
        9_223_372_036_854_775_808,
        "Fault(Fault { tick: 0, phase: Birth, agent: 9223372036854775807, site: 2, outer: None, \
         inner: None, kind: TooMany })",
    ),
    (
        PASSING,
        &[(4, 0, 0), (6, 0, 1)],
        9,
        "6 [Fixed(0), Fixed(0), Int(2)], 9 [Fixed(0), Fixed(0), Int(0)], next 10",
    ),
];

#[test]
fn steps_over_deaths_and_births(rt: HostRuntime) -> Result<(), Fail> {
    let alloc = rt.alloc();
    for &(script, rows, next, want) in &STEPS {
        let text = stepped(alloc, program(alloc, script)?, rows, next)?;
        assert_eq!(rt; text.as_str(), want);
    }
    Ok(())
}

/// Agents say 3 to the sum of each agent within 1.0.
const SPEAKING: &str = "class B{#visible[1];public state fixed x;public state fixed y;public state \
 int a;public effect int s:sum;public void run(){foreach(B p:Extent<B>){p.s<-3;}}}";

const SPEAKERS: &str = "B,4,0,0,0\nB,9,0.5,0,0\nB,12,1.1,0,0\n";

/// What all agents hear of all but the first, and what the second has then heard, once 9 is joined
/// to it as two values.
fn heard_in(alloc: Global, program: &Program, agents: &[Agent]) -> Result<String, Fail>
    requires { RisesById agents.now }
{
    let Some((_, asking)) = agents.split_first() else {
        return Err("no agents".into());
    };
    let mut heard = Heard::nothing(alloc, program, agents)?;
    heard.hear(alloc, program, 0, 0, agents, asking)?;
    let mut text = format!(in alloc; "{:?} {:?}", heard.totals, heard.counts)?;
    heard.join(program, agents, 1, 0, 9, 2)?;
    let (totals, counts) = heard.row(program, agents, 1);
    text.push_str(format!(in alloc; ", then {totals:?} {counts:?}")?.as_str())?;
    Ok(text)
}

#[test]
fn hears_some_agents(rt: HostRuntime) -> Result<(), Fail> {
    let alloc = rt.alloc();
    let program = program(alloc, SPEAKING)?;
    let agents = agents(alloc, &program, SPEAKERS)?;
    let found = heard_in(alloc, &program, agents.as_slice())?;
    assert_eq!(rt; found.as_str(), "[3, 3, 3] [1, 1, 1], then [12] [3]");
    Ok(())
}
