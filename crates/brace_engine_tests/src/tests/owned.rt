// Agents in columns that are owned: as lists, with more behind, and some of them.
use brace_fold::{Redo, columns_of};
use brace_model::{Agent, Herd, Program};
use brace_num::NoMemory;
use brace_test_runs::{agents, program};
use std::alloc::Global;
use std::test::Fail;

/// Tells the ids of agents, and how many values each has.
fn tell(alloc: Global, agents: &[Agent], text: &mut String) -> Result<(), NoMemory> {
    for agent in agents {
        let count = agent.states.as_slice().len();
        text.push_str(format!(in alloc; "{} {count}, ", agent.id)?.as_str())?;
    }
    text.push_str("/ ")?;
    Ok(())
}

/// The ids of the agents of two lists, and how many values they have.
fn told(alloc: Global, lists: [&[Agent]; 2]) -> Result<String, NoMemory> {
    let mut text = String::new(alloc);
    for agents in lists {
        tell(alloc, agents, &mut text)?;
    }
    Ok(text)
}

/// Of agents in columns those of some rows, and all with them behind.
fn each_way(alloc: Global, program: &Program, agents: &[Agent]) -> Result<String, Redo> {
    let mut rows = columns_of(alloc, program, agents, &[])?;
    let few = rows.picked(alloc, &[2, 0, 4])?.agents(alloc, program)?;
    rows.add(&Herd::of(alloc, few.as_slice())?)?;
    rows.expect_listed(alloc, program)?;
    let all = rows.agents(alloc, program)?;
    Ok(told(alloc, [few.as_slice(), all.as_slice()])?)
}

/// A class of three states and one of two.
const SCRIPT: &str = "class P{#visible[4];#reach[1];public state fixed x;public state fixed y;\
 public state int h;}class Q{#visible[1];public state fixed x;public state fixed y;}";

const ROWS: &str = "P,1,0,0,3\nP,2,1,2,4\nQ,4,2,2\nP,5,1,1,10\nQ,6,0,0\n";

const PICKED: &str = "4 2, 1 3, 6 2, / 1 3, 2 3, 4 2, 5 3, 6 2, 4 2, 1 3, 6 2, / ";

#[test]
fn picks_agents_of_rows(rt: HostRuntime) -> Result<(), Fail> {
    let alloc = rt.alloc();
    let program = program(alloc, SCRIPT)?;
    let agents = agents(alloc, &program, ROWS)?;
    let Ok(found) = each_way(alloc, &program, agents.as_slice()) else {
        return Err("no columns".into());
    };
    assert_eq!(rt; found.as_str(), PICKED);
    Ok(())
}
