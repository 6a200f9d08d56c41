// What agents leave by compiled rules, beside what they leave by rules as they are written.
ghost use Rattle.std.specs.Prelude.{IsTrue};
ghost use Rattle.std.specs.List.{list_all};
ghost use Rattle.brace_model.specs.Lawful.{LawfulProgram, is_lawful_agent};

use brace_draw::Drawer;
use brace_eval::left_by;
use brace_model::{Agent, Program};
use brace_num::NoMemory;
use brace_plan::{Plans, Room, plan};
use brace_test_runs::{agents, program};
use std::alloc::Global;
use std::test::Fail;

/// The totals of an agent: a sum, a count, and that a flag was given.
const TOTALS: [i128; 3] = [-2, 3, 1];

/// What an agent leaves by compiled rules in tick 4 of a run of seed 7.
fn by_code(alloc: Global, plans: &Plans, a: &Agent) -> Result<String, NoMemory>
    requires { IsTrue (is_lawful_agent plans.now a.now) }
{
    let mut room = Room::make(alloc, 7)?;
    let left = plans.left_by(alloc, 4, a, &TOTALS, &mut room);
    Ok(format!(in alloc; "{:?}", left)?)
}

/// The same by rules as they are written.
fn as_written(alloc: Global, program: &Program, a: &Agent) -> Result<String, NoMemory>
    requires { LawfulProgram program.now }
{
    let mut drawer = Drawer::make(7);
    let left = left_by(alloc, program, 4, a, &TOTALS, &mut drawer);
    Ok(format!(in alloc; "{:?}", left)?)
}

/// Whether an agent leaves the same either way.
fn leaves_alike(
    alloc: Global,
    plans: &Plans,
    program: &Program,
    a: &Agent,
) -> Result<bool, NoMemory>
    requires lawful { LawfulProgram program.now }
    requires agent { IsTrue (is_lawful_agent plans.now a.now) }
{
    let coded = by_code(alloc, plans, a)?;
    Ok(coded == as_written(alloc, program, a)?)
}

/// Whether each of these agents leaves the same either way.
fn leave_alike(alloc: Global, program: &Program, agents: &[Agent]) -> Result<bool, NoMemory>
    requires lawful { LawfulProgram program.now }
    requires agents { IsTrue (list_all (is_lawful_agent program.now) agents.now) }
{
    let plans = plan(alloc, program)?;
    for a in agents {
        if !leaves_alike(alloc, &plans, program, a)? {
            return Ok(false);
        }
    }
    Ok(true)
}

/// Rules that draw, read totals and stop; a death; a child with gifts, one of which may stop.
const LIVELY: &str = "class P{#reach[1];public state fixed x:x+4.0*rand()-2.0;public state fixed y:\
 h>0?y/fixed(h):y;public state int h:h+s-n;public state bool on:!on&&o;public effect int s:sum;\
 public effect int n:count;public effect bool o:or;die when h>4&&on;spawn when n>=3&&x<9.0{h<-100/(\
 h-7);x<-x+5.0;on<-rand()<0.5;}}";

/// Agents that live and die, alone and with a child, and some whose rules or gifts stop.
const LIVES: &str = "P,1,0,0,3,true\nP,2,-1.5,2,4,false\nP,3,8.5,-2,9,true\nP,4,9,1,10,true\nP,5,0,\
 0,-9223372036854775808,true\nP,6,1,1,7,false\nP,7,9223372036854.775807,1,1,true\n";

/// Two classes: one without rules, and one that divides by a state, also in `die`.
const SEVERAL: &str = "class A{public state fixed x;public state fixed y;}class B{#reach[0.5];\
 public state fixed x:abs(x)+sqrt(y);public state fixed y:min(y,x);public state int n:7%n;die when \
 1/n>0;}";

const MANY: &str = "A,9,1,2\nB,1,-1,4,3\nB,2,1,-4,0\nB,3,1,-4,1\nB,4,0,0,0\nA,5,0,0\nB,6,1,4,1\n";

/// Scripts and their agents.
const CASES: [(&str, &str); 2] = [(LIVELY, LIVES), (SEVERAL, MANY)];

#[test]
fn rules_as_code_leave_what_rules_as_written_do(rt: HostRuntime) -> Result<(), Fail> {
    let alloc = rt.alloc();
    for &(script, rows) in &CASES {
        let program = program(alloc, script)?;
        let agents = agents(alloc, &program, rows)?;
        assert!(rt; leave_alike(alloc, &program, agents.as_slice())?);
    }
    Ok(())
}
