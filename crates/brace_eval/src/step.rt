ghost use Rattle.std.specs.Prelude.{◌≡◌, ◌≤◌, ◌^◌, filter_map, IfOk, IfErr, Ok, Err, Some, None};
ghost use Rattle.std.specs.Result.{result_ok, result_err};
ghost use Rattle.brace_model.specs.FaultOrder.{least};
ghost use Rattle.brace_model.specs.Lawful.{LawfulProgram};
ghost use Rattle.brace_model.specs.World.{RisesById};
ghost use Rattle.brace_model.specs.Query.{said_in, query_faults};
ghost use Rattle.brace_model.specs.Step.{step, all_next, living, children};
ghost use Rattle.brace_eval.specs.Heard.{table_of};
ghost use Rattle.brace_eval.specs.inner.Updates.{with_one};

use crate::births::{birth_fault, first_too_far, grown};
use crate::fault::StepFault;
use crate::heard::{Heard, effects_of};
use crate::update::left_by;
use brace_draw::Drawer;
use brace_model::{Agent, Fault, Herd, Job, Left, Parent, Program, World, with_earlier};
use brace_num::NoMemory;
use std::alloc::Global;

/// What the agents of a world leave.
#[derive(Debug, Drop)]
struct Nexts {
    /// The agents that live on, by rising id.
    living: Vec<Agent>,
    /// The children, by their parents' ids.
    born: Vec<Agent>,
}

impl Nexts {
    /// Adds what one more agent leaves.
    fn add(&mut self, left: Left) -> Result<(), NoMemory>
        ensures living { IfOk result (λ _. self.new.living.items
            ≡ with_one self.old.living.items left.agent) }
        ensures born { IfOk result (λ _. self.new.born.items
            ≡ with_one self.old.born.items left.child) }
    {
        let Left { agent, child } = left;
        if let Some(agent) = agent {
            self.living.push(agent)?;
        }
        if let Some(child) = child {
            self.born.push(child)?;
        }
        Ok(())
    }
}

/// What all agents leave, each with its own totals, or the least fault of their updates.
fn updates<'a>(
    alloc: Global,
    program: &Program,
    tick: u64,
    agents: &'a [Agent],
    totals: &'a [i128],
    drawer: &mut Drawer,
) -> Result<Nexts, StepFault>
    requires ticks { tick ≤ 2 ^ 32 }
    requires lawful { LawfulProgram program.now }
    requires totals { totals.now ≡ table_of program.now
        (said_in program.now drawer.old.seed tick agents.now) agents.now }
    ensures passes { IfOk result (λ _. least
        (filter_map result_err (all_next program.now drawer.old.seed tick agents.now)) ≡ None) }
    ensures living { IfOk result (λ nexts. living
        (filter_map result_ok (all_next program.now drawer.old.seed tick agents.now)) ≡
        nexts.living.items) }
    ensures born { IfOk result (λ nexts. children
        (filter_map result_ok (all_next program.now drawer.old.seed tick agents.now)) ≡
        nexts.born.items) }
    ensures faulted { IfErr result (λ e. (fault : Fault) → e ≡ StepFault.Fault fault
        → least (filter_map result_err
        (all_next program.now drawer.old.seed tick agents.now)) ≡ Some fault) }
{
    let mut nexts = Nexts {
        living: Vec::new(alloc),
        born: Vec::new(alloc),
    };
    let mut least = None;
    let mut rest = totals;
    for a in agents {
        let (row, behind) = rest.split_at(effects_of(program, a).len());
        rest = behind;
        match left_by(alloc, program, tick, a, row, drawer) {
            Ok(left) => nexts.add(left)?,
            Err(StepFault::Fault(fault)) => least = Some(with_earlier(least, fault)),
            Err(StepFault::NoMemory) => return Err(StepFault::NoMemory),
        }
    }
    match least {
        None => Ok(nexts),
        Some(fault) => Err(StepFault::Fault(fault)),
    }
}

/// What all agents say to each other, and the least fault of their queries.
fn all_heard(
    alloc: Global,
    program: &Program,
    seed: u64,
    tick: u64,
    agents: &[Agent],
) -> Result<Heard, NoMemory>
    requires rises { RisesById agents.now }
    requires ticks { tick ≤ 2 ^ 32 }
    ensures totals { IfOk result (λ heard. heard.totals.items
        ≡ table_of program.now (said_in program.now seed tick agents.now) agents.now) }
    ensures least { IfOk result (λ heard. heard.least
        ≡ least (query_faults program.now seed tick agents.now)) }
{
    let mut heard = Heard::nothing(alloc, program, agents)?;
    heard.hear(alloc, program, seed, tick, agents, agents)?;
    Ok(heard)
}

/// One tick of a job's program from a world: the next world, or the tick's least fault.
///
/// The queries of all agents are evaluated to the end of each iteration, and the values said are
/// joined at once in one table of totals. Then each agent's rules, deaths and births are evaluated
/// over its old states and its totals. The tick is at most 2^32. `NoMemory` where memory is
/// refused, or where a total is beyond 128 bits.
pub fn plain_step(alloc: Global, job: &Job, tick: u64, world: &World) -> Result<World, StepFault>
    requires lawful { LawfulProgram job.now.program }
    requires ticks { tick ≤ 2 ^ 32 }
    ensures stepped { IfOk result (λ next.
        step job.now.program job.now.seed tick world.now ≡ Ok next) }
    ensures faulted { IfErr result (λ e. (fault : Fault) → e ≡ StepFault.Fault fault
        → step job.now.program job.now.seed tick world.now ≡ Err fault) }
{
    let herd = world.agents();
    let listed = herd.agents()?;
    let agents = listed.as_slice();
    let heard = all_heard(alloc, &job.program, job.seed, tick, agents)?;
    if let Some(fault) = heard.least {
        return Err(StepFault::Fault(fault));
    }
    let mut drawer = Drawer::make(job.seed);
    let nexts = updates(
        alloc,
        &job.program,
        tick,
        agents,
        &heard.totals,
        &mut drawer,
    )?;
    if let Some(child) = first_too_far(&nexts.living, world.next(), &nexts.born) {
        let parent = Parent {
            id: child.id,
            class: child.class,
        };
        return Err(StepFault::Fault(birth_fault(&job.program, tick, parent)));
    }
    let (agents, next) = grown(nexts.living, world.next(), nexts.born)?;
    let packed = Herd::of(alloc, agents.as_slice())?;
    match World::with_next(packed, next) {
        Some(next) => Ok(next),
        None => unreachable!(),
    }
}
