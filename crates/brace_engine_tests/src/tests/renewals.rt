// What many agents leave, beside what each leaves by itself.
ghost use Rattle.std.specs.Prelude.{◌≡◌, List, IfOk, IsTrue};
ghost use Rattle.std.specs.List.{list_all};
ghost use Rattle.brace_model.specs.Lawful.{LawfulProgram, is_lawful_agent};
ghost use Rattle.brace_model.specs.World.{RisesById};
ghost use Rattle.brace_model.specs.declared.world.Agent.{Agent};
ghost use Rattle.brace_fold.specs.Arranged.{AreArranged};
ghost use Rattle.brace_fold.specs.Rows.{AreRows, rows_in};

use brace_eval::Heard;
use brace_fold::{
    Arranged, Columns, Redo, Renewed, Table, columns_of, expect_wide, most_effects, renew,
    renew_rows, views,
};
use brace_model::{Agent, Left, Program};
use brace_num::NoMemory;
use brace_plan::{Plans, Room, plan};
use brace_test_runs::{agents, program};
use std::alloc::Global;
use std::test::Fail;

/// What each agent leaves in tick 4 of a run of seed 7: first those that live on, then the
/// children.
fn one_by_one(
    alloc: Global,
    plans: &Plans,
    agents: &[Agent],
    heard: &Heard,
) -> Result<Option<String>, NoMemory>
    requires { IsTrue (list_all (is_lawful_agent plans.now) agents.now) }
{
    let mut room = Room::make(alloc, 7)?;
    let mut lives = Vec::new(alloc);
    let mut born = Vec::new(alloc);
    let mut place = 0usize;
    for a in agents {
        let (totals, _) = heard.row(plans.program(), agents, place);
        let Ok(left) = plans.left_by(alloc, 4, a, totals, &mut room) else {
            return Ok(None);
        };
        place = place.saturating_add(1);
        let Left { agent, child } = left;
        if let Some(agent) = agent {
            lives.push(agent)?;
        }
        if let Some(child) = child {
            born.push(child)?;
        }
    }
    Ok(Some(format!(in alloc; "{:?} {:?}", lives, born)?))
}

/// Agents equal to these.
fn copied(alloc: Global, agents: &[Agent]) -> Result<Vec<Agent>, NoMemory>
    ensures { IfOk result (λ copy. copy.items ≡ agents.now) }
{
    let mut copy = Vec::with_capacity(alloc, agents.len())?;
    for a in agents {
        copy.push(a.copy(alloc)?)?;
    }
    Ok(copy)
}

/// The same, of all at once.
fn at_once(
    alloc: Global,
    plans: &Plans,
    agents: &[Agent],
    heard: &Heard,
) -> Result<Option<String>, NoMemory>
    requires { IsTrue (list_all (is_lawful_agent plans.now) agents.now) }
{
    let mut left = copied(alloc, agents)?;
    let mut rows = Vec::new(alloc);
    for place in 0..agents.len() {
        let (totals, _) = heard.row(plans.program(), agents, place);
        rows.push(totals)?;
    }
    match renew(alloc, plans, 7, 4, &mut left, &rows) {
        Ok(born) => Ok(Some(format!(in alloc; "{:?} {:?}", left, born)?)),
        Err(_) => Ok(None),
    }
}

/// What all agents leave that stand in the order of cells, by what they say there.
fn renewed(alloc: Global, plans: &Plans, arranged: &Arranged) -> Result<Renewed, Redo>
    requires { (agents : List Agent) × AreArranged plans.now agents arranged.now }
{
    let program = plans.program();
    let all = arranged.all(alloc)?;
    let mut said = Table::nothing(alloc, all.len(), most_effects(program))?;
    arranged.ask(alloc, plans, 7, 4, &all, &mut said)?;
    let states = views(alloc, &arranged.rows.states)?;
    let columns = arranged.rows.as_columns(&states);
    expect_wide(program, &columns)?;
    renew_rows(alloc, plans, 7, 4, &columns, &all, &said)
}

/// The agents of columns in the order of cells.
fn arranged(alloc: Global, plans: &Plans, columns: &Columns) -> Result<Arranged, Redo>
    requires { AreRows plans.now columns.now }
    ensures { IfOk result (AreArranged plans.now (rows_in plans.now columns.now)) }
{
    let arranged = Arranged::of(alloc, plans.program(), columns)?;
    Ok(arranged)
}

/// The agents that live on and those that are born, each by rising id.
fn by_id(alloc: Global, program: &Program, renewed: Renewed) -> Result<String, Redo> {
    let mut left = renewed.left.agents(alloc, program)?;
    let mut born = renewed.born;
    left.sort_by_key(|a| a.id)?;
    born.sort_by_key(|a| a.id)?;
    Ok(format!(in alloc; "{:?} {:?}", left, born)?)
}

/// The same as each leaves, of all in columns, by rising id.
fn in_columns(alloc: Global, plans: &Plans, agents: &[Agent]) -> Result<String, Redo>
    requires lawful { IsTrue (list_all (is_lawful_agent plans.now) agents.now) }
    requires rises { RisesById agents.now }
{
    let program = plans.program();
    let rows = columns_of(alloc, program, agents, &[])?;
    let states = views(alloc, &rows.states)?;
    let columns = rows.as_columns(&states);
    expect_wide(program, &columns)?;
    let arranged = arranged(alloc, plans, &columns)?;
    let renewed = renewed(alloc, plans, &arranged)?;
    by_id(alloc, program, renewed)
}

/// Whether agents leave the same one by one, all at once, and in columns, and whether they leave
/// a next world.
fn leave_alike(
    alloc: Global,
    plans: &Plans,
    agents: &[Agent],
    heard: &Heard,
) -> Result<(bool, bool), NoMemory>
    requires lawful { IsTrue (list_all (is_lawful_agent plans.now) agents.now) }
    requires rises { RisesById agents.now }
{
    let one_by_one = one_by_one(alloc, plans, agents, heard)?;
    let at_once = at_once(alloc, plans, agents, heard)?;
    let in_columns = in_columns(alloc, plans, agents).ok();
    let are_alike = one_by_one == at_once && one_by_one == in_columns;
    Ok((are_alike, one_by_one.is_some()))
}

/// The same, by what is heard of all of them.
fn each_way(alloc: Global, program: &Program, agents: &[Agent]) -> Result<(bool, bool), NoMemory>
    requires lawful { LawfulProgram program.now }
    requires agents { IsTrue (list_all (is_lawful_agent program.now) agents.now) }
    requires rises { RisesById agents.now }
{
    let plans = plan(alloc, program)?;
    let mut heard = Heard::nothing(alloc, program, agents)?;
    heard.hear(alloc, program, 7, 4, agents, agents)?;
    leave_alike(alloc, &plans, agents, &heard)
}

/// Two classes whose rules draw and read totals; deaths, and children with gifts.
const GROWING: &str = "class P{#visible[4];#reach[1];public state fixed x:x+4.0*rand()-2.0;public \
 state fixed y;public state int h:h+s-n;public state bool on:!on&&o;public effect int s:sum;public \
 effect int n:count;public effect bool o:or;public void run(){foreach(P p:Extent<P>){p.s<-2;p.n<-1;\
 p.o<-p.on;}foreach(Q q:Extent<Q>){q.m<-x;}}die when h>7&&on;spawn when n>=2&&x<9.0{h<-100/(h-7);x<-\
 x+5.0;on<-rand()<0.5;}}class Q{#visible[1];public state fixed x:m;public state fixed y:y+rand();\
 public effect fixed m:max;die when rand()<0.3;}";

const ROWS: &str =
    "P,1,0,0,3,true\nP,2,-1.5,2,4,false\nP,4,2.5,-2,9,true\nP,5,1,1,10,true\nQ,6,0,0\n\
 Q,7,2,-2\nQ,8,1,1\nP,9,40,0,8,true\nQ,10,1,1\n";

/// One of the gifts stops.
const STOPS: &str = "P,1,0,0,7,true\nP,2,0,0,7,false\nP,3,1,1,7,true\n";

/// Agents, and whether they leave a next world.
const CASES: [(&str, bool); 2] = [(ROWS, true), (STOPS, false)];

#[test]
fn renews_all_as_each(rt: HostRuntime) -> Result<(), Fail> {
    let alloc = rt.alloc();
    let program = program(alloc, GROWING)?;
    for &(rows, goes_on) in &CASES {
        let agents = agents(alloc, &program, rows)?;
        assert!(rt; each_way(alloc, &program, agents.as_slice())? == (true, goes_on));
    }
    Ok(())
}
