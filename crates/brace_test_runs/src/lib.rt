//! What tests of the engine work on: programs, agents and runs, of texts.
#![tactic(auto)]

ghost use Rattle.std.specs.Prelude.{IfOk, IsTrue};
ghost use Rattle.std.specs.List.{list_all};
ghost use Rattle.brace_model.specs.Lawful.{LawfulProgram, is_lawful_agent};
ghost use Rattle.brace_model.specs.World.{RisesById};
ghost use Rattle.brace_pieces.specs.Settings.{LawfulSetting};

use brace_check::check;
use brace_cuts::read_plan;
use brace_model::{Agent, Job, Program, Value};
use brace_names::resolve;
use brace_num::{List, NoMemory};
use brace_pieces::Setting;
use brace_rows::read_agents;
use brace_syntax::parse;
use brace_tok::tokens;
use std::alloc::Global;

/// The program of a script; or what it has none of.
pub fn program(alloc: Global, script: &str) -> Result<Program, &'static str>
    ensures { IfOk result LawfulProgram }
{
    let src = script.as_bytes();
    if src.len() > 1_048_576 {
        return Err("a long script");
    }
    let Ok(toks) = tokens(alloc, src) else {
        return Err("no tokens");
    };
    let Ok(tree) = parse(alloc, src, toks.as_slice()) else {
        return Err("no tree");
    };
    let Ok(resolved) = resolve(alloc, tree) else {
        return Err("no names");
    };
    let Ok(program) = check(alloc, resolved) else {
        return Err("no program");
    };
    Ok(program)
}

/// An agent of the first class with these states.
pub fn agent(alloc: Global, id: u64, values: &[Value]) -> Result<Agent, NoMemory> {
    let mut states = List::new(alloc);
    for value in values {
        states.push(*value)?;
    }
    Ok(Agent {
        class: 0,
        id,
        states,
    })
}

/// The agents of rows, by rising id; or why there are none.
pub fn agents(alloc: Global, program: &Program, rows: &str) -> Result<Vec<Agent>, &'static str>
    ensures lawful { IfOk result (λ agents.
        IsTrue (list_all (is_lawful_agent program.now) agents.items)) }
    ensures rises { IfOk result (λ agents. RisesById agents.items) }
{
    let Ok(world) = read_agents(alloc, program, rows.as_bytes()) else {
        return Err("no agents");
    };
    let Ok(agents) = world.agents().agents() else {
        return Err("no memory");
    };
    Ok(agents)
}

/// A run: its script, agents and cut plan, its first and last tick, the length of its epochs, every
/// how many ticks it is published, and whether effects are inverted.
#[derive(Clone, Copy, Drop)]
pub struct Run<'a> {
    pub script: &'a str,
    pub agents: &'a str,
    pub plan: &'a str,
    pub ticks: (u32, u32),
    pub epoch: u64,
    pub every: u64,
    pub invert: bool,
}

/// The setting of a run of seed 5; or what it has none of.
pub fn setting(alloc: Global, run: &Run) -> Result<Setting, &'static str>
    ensures lawful { IfOk result LawfulSetting }
{
    let (first, last) = run.ticks;
    if run.epoch < 1 || run.epoch > 16 || run.every < 1 {
        return Err("no epochs");
    }
    let program = program(alloc, run.script)?;
    let Ok(start) = read_agents(alloc, &program, run.agents.as_bytes()) else {
        return Err("no agents");
    };
    let Ok(cuts) = read_plan(alloc, run.plan.as_bytes(), run.epoch) else {
        return Err("no plan");
    };
    let job = Job {
        program,
        seed: 5,
        first: u64::from(first),
        last: u64::from(last),
        every: run.every,
        start,
    };
    Ok(Setting {
        job,
        cuts,
        epoch: run.epoch,
        invert: run.invert,
    })
}
