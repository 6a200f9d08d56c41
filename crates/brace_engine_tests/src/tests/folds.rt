// Many agents asked at once.
ghost use Rattle.std.specs.Prelude.{IsTrue};
ghost use Rattle.std.specs.List.{list_all};
ghost use Rattle.brace_model.specs.Lawful.{LawfulProgram, is_lawful_agent};
ghost use Rattle.brace_model.specs.World.{RisesById};

use brace_eval::Heard;
use brace_fold::fold;
use brace_model::{Agent, Program};
use brace_num::NoMemory;
use brace_plan::plan;
use brace_test_runs::{agents, program};
use std::alloc::Global;
use std::test::Fail;

/// Constants and a draw, a loop in a loop, a condition, and what is said to each.
const TALKING: &str = "class A{#visible[2];public state fixed x;public state fixed y;\
 public effect fixed s:sum;public effect int n:count;public void run(){const fixed k=x+rand();\
 foreach(A p:Extent<A>){const fixed d=p.x-k;if(d<0.0){p.s<-d;}else{n<-d;}\
 foreach(A q:Extent<A>){if(q.x>p.x){q.s<-d;p.n<-true;}}}}}";

const ROWS: &str = "A,2,0,0\nA,3,1,0\nA,5,1.5,1\nA,8,2.5,-1\nA,9,40,0\n";

/// Whether agents asked at once say what a plain walk hears, some more than two values, and whether
/// an agent that is not there is told.
fn is_folded(alloc: Global, program: &Program, agents: &[Agent]) -> Result<bool, NoMemory>
    requires lawful { LawfulProgram program.now }
    requires agents { IsTrue (list_all (is_lawful_agent program.now) agents.now) }
    requires rises { RisesById agents.now }
{
    let plans = plan(alloc, program)?;
    let mut heard = Heard::nothing(alloc, program, agents)?;
    heard.hear(alloc, program, 5, 3, agents, agents)?;
    let mut folded = Heard::nothing(alloc, program, agents)?;
    let goes_on = fold(alloc, &plans, 5, 3, agents, &[4, 0, 3, 1, 2], &mut folded).is_ok();
    let totals_are = folded.totals.as_slice() == heard.totals.as_slice();
    let counts_are = folded.counts.as_slice() == heard.counts.as_slice();
    let several = heard.counts.iter().any(|count| *count > 2);
    let stops = fold(alloc, &plans, 5, 3, agents, &[5], &mut folded).is_err();
    Ok(goes_on && totals_are && counts_are && several && stops)
}

#[test]
fn folds_what_a_plain_walk_hears(rt: HostRuntime) -> Result<(), Fail> {
    let alloc = rt.alloc();
    let program = program(alloc, TALKING)?;
    let agents = agents(alloc, &program, ROWS)?;
    assert!(rt; is_folded(alloc, &program, agents.as_slice())?);
    Ok(())
}
