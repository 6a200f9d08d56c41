ghost use Rattle.std.specs.Prelude.{◌≡◌, ◌≤◌, ◌^◌, [], ◌+◌, ◌++◌, ℤ, List, pos, ◌≤ℤ◌, map, filter_map, length, reverse, IsTrue, IfOk, IfErr};
ghost use Rattle.std.specs.Vec.{vec_len, vec_capacity};
ghost use Rattle.std.specs.List.{All, list_all};
ghost use Rattle.std.specs.Result.{result_ok, result_err};
ghost use Rattle.brace_model.specs.declared.world.Agent.{Agent};
ghost use Rattle.brace_model.specs.Lawful.{is_lawful_agent};
ghost use Rattle.brace_model.specs.Value.{Scope};
ghost use Rattle.brace_model.specs.Step.{living, children};
ghost use Rattle.brace_code.specs.declared.lane.Lane.{Lane};
ghost use Rattle.brace_code.specs.Lanes.{Shows};
ghost use Rattle.brace_fold.specs.Becoming.{becomes_by};
ghost use Rattle.brace_fold.specs.inner.Rulings.{AreLanes, Leaves};
ghost use Rattle.brace_fold.specs.inner.Renewals.{HasReach, Renews, left_by, living_in};

use crate::columns::{each, state_columns, states_of, views};
use crate::drawn::{drawn_for, lent};
use crate::leaving::{children, keep_living, lanes_set};
use crate::outcome::{Outcome, run_all, run_gifts};
use crate::rows::{lanes_of, of_class, total_columns};
use crate::sites::rule_sites;
use brace_code::{Draws, Frame, Redo};
use brace_model::{Agent, Class};
use brace_plan::{Plans, Ruled};
use std::alloc::Global;
use std::mem;

/// So many agents of one class are to stand together on average.
const FEW: usize = 16;

/// By what agents of a tick are renewed.
#[derive(Clone, Copy)]
pub struct Ground<'a> {
    pub alloc: Global,
    pub plans: &'a Plans,
    pub seed: u64,
    pub tick: u64,
}

/// What the rules of a class came to for so many of its agents, in a row each.
#[derive(Drop)]
struct Batch<'a> {
    class: &'a Class,
    count: usize,
    out: Outcome,
}

/// What the rules of a class come to for agents that words are shown of, in a row each; their
/// children are added.
fn outcome_of(
    alloc: Global,
    ruled: &Ruled,
    frame: &Frame,
    agents: &[Agent],
    born: &mut Vec<Agent>,
) -> Result<Outcome, Redo>
    requires { pos 0 ≤ℤ ruled.now.class.now.reach }
    ensures { IfOk result (λ out. (scope : Lane → Scope) → Shows frame.now scope
        → (lanes : List Lane) × (AreLanes (length agents.now) lanes
        × ((d : Agent) → Leaves ruled.now.class.now ruled.now.rules.now agents.now lanes scope d
        out born.old.items born.new.items))) }
{
    let lanes = lanes_of(agents.len());
    let out = run_all(alloc, ruled.rules, frame, &lanes)?;
    let parents = lanes_set(alloc, &out.spawn, &lanes)?;
    let codes = ruled.rules.gifts.as_slice();
    let gifts = run_gifts(alloc, codes, frame, &parents)?;
    let mut more = children(alloc, ruled.class, &gifts, agents, &parents)?;
    born.append(&mut more)?;
    Ok(out)
}

/// The columns that rules read.
pub fn frame_of<'a>(
    states: &'a [&'a [i64]],
    totals: &'a [&'a [i64]],
    draws: &'a [Draws<'a>],
) -> Frame<'a>
    ensures states { result.this.now ≡ states.now }
    ensures outer { result.outer.now ≡ [] }
    ensures inner { result.inner.now ≡ [] }
    ensures locals { result.locals.now ≡ [] }
    ensures totals { result.totals.now ≡ totals.now }
    ensures draws { result.draws.now ≡ draws.now }
{
    Frame {
        this: states,
        outer: &[],
        inner: &[],
        locals: &[],
        totals,
        draws,
    }
}

/// As many columns as a list is long.
fn as_many(count: usize) -> u32 {
    u32::try_from(count).unwrap_or(u32::MAX)
}

/// What the rules of a class come to for agents of it, with their totals; their children are added.
fn batch_of<'a>(
    ground: &Ground<'a>,
    class: u32,
    agents: &[Agent],
    rows: &[&[i128]],
    born: &mut Vec<Agent>,
) -> Result<Batch<'a>, Redo>
    requires lawful { IsTrue (list_all (is_lawful_agent ground.now.plans.now) agents.now) }
    requires ticks { ground.now.tick ≤ 2 ^ 32 }
    requires alike { All (λ a. a.class ≡ class) agents.now }
    ensures count { IfOk result (λ batch. batch.count ≡ length agents.now) }
    ensures reach { IfOk result HasReach }
    ensures renews { IfOk result (λ batch. (totals : Agent → List ℤ)
        → map (λ r. r.now) rows.now ≡ map totals agents.now
        → Renews ground.now.plans.now ground.now.seed ground.now.tick totals agents.now
        (left_by batch agents.now) born.old.items born.new.items) }
{
    let alloc = ground.alloc;
    let Some(ruled) = ground.plans.ruled(class) else {
        return Err(Redo);
    };
    let count = as_many(ruled.class.states.as_slice().len());
    let agent_rows = each(alloc, agents)?;
    let values = states_of(alloc, &agent_rows)?;
    let columns = state_columns(alloc, &values, count)?;
    let states = views(alloc, &columns)?;
    let count = as_many(ruled.class.effects.as_slice().len());
    let sums = total_columns(alloc, rows, count)?;
    let totals = views(alloc, &sums)?;
    let mut sites = Vec::new(alloc);
    rule_sites(ruled.class, &mut sites)?;
    let drawn = drawn_for(alloc, ground.seed, ground.tick, &sites, &agent_rows)?;
    let draws = lent(alloc, &drawn)?;
    let frame = frame_of(&states, &totals, &draws);
    let out = outcome_of(alloc, &ruled, &frame, agents, born)?;
    Ok(Batch {
        class: ruled.class,
        count: agents.len(),
        out,
    })
}

/// What the rules come to for agents with their totals, those that stand together and are of one
/// class at once; their children are added.
fn batches_of<'a>(
    ground: &Ground<'a>,
    agents: &[Agent],
    rows: &[&[i128]],
    born: &mut Vec<Agent>,
) -> Result<Vec<Batch<'a>>, Redo>
    requires lawful { IsTrue (list_all (is_lawful_agent ground.now.plans.now) agents.now) }
    requires ticks { ground.now.tick ≤ 2 ^ 32 }
    requires long { length rows.now ≡ length agents.now }
    ensures reach { IfOk result (λ batches. All HasReach batches.items) }
    ensures renews { IfOk result (λ batches. (totals : Agent → List ℤ)
        → map (λ r. r.now) rows.now ≡ map totals agents.now
        → Renews ground.now.plans.now ground.now.seed ground.now.tick totals agents.now
        (living_in batches.items agents.now) born.old.items born.new.items) }
{
    let mut batches = Vec::new(ground.alloc);
    let mut from = 0;
    while from < agents.len() {
        let class = agents[from].class;
        let (_, left) = agents.split_at(from);
        let (_, told) = rows.split_at(from);
        let count = of_class(left, class);
        if count == 0 {
            return Err(Redo);
        }
        let (these, _) = left.split_at(count);
        let (theirs, _) = told.split_at(count);
        let batch = batch_of(ground, class, these, theirs, born)?;
        batches.push(batch)?;
        from += count;
    }
    Ok(batches)
}

/// Whether the agents that stand together are many enough for lanes to pay.
pub fn pays(agents: &[Agent]) -> bool {
    let mut last = None;
    let mut changes = 0usize;
    for a in agents {
        if last != Some(a.class) {
            last = Some(a.class);
            changes = changes.saturating_add(1);
        }
    }
    changes <= 4 + agents.len() / FEW
}

/// Adds those of some agents that live on, by what rules came to for them.
fn leave(batches: &[Batch], mut agents: Vec<Agent>, left: &mut Vec<Agent>)
    requires reach { All HasReach batches.now }
    requires room { vec_len left.old + vec_len agents ≤ vec_capacity left.old }
    ensures { left.new.items ≡ left.old.items ++ living_in batches.now agents.items }
{
    agents.reverse();
    for batch in batches {
        keep_living(batch.class, &batch.out, batch.count, &mut agents, left);
    }
}

/// Renews agents, each by a row of its totals, with the draws of a seed: those that live on are
/// left, and the children are answered, which bear their parents' ids. `Redo` says nothing, and the
/// agents stay as they are: an update may have faulted, or a total needs more than 64 bits, or
/// memory was refused, or agents of several classes stand mixed, one by one.
///
/// The agents are lawful ones of the program, and the tick is at most 2^32.
pub fn renew(
    alloc: Global,
    plans: &Plans,
    seed: u64,
    tick: u64,
    agents: &mut Vec<Agent>,
    rows: &[&[i128]],
) -> Result<Vec<Agent>, Redo>
    requires lawful { IsTrue (list_all (is_lawful_agent plans.now) agents.old.items) }
    requires ticks { tick ≤ 2 ^ 32 }
    ensures left { IfOk result (λ _. (totals : Agent → List ℤ)
        → map (λ r. r.now) rows.now ≡ map totals agents.old.items → agents.new.items
        ≡ living (filter_map result_ok (map (becomes_by plans.now seed tick totals)
        agents.old.items))) }
    ensures born { IfOk result (λ born. (totals : Agent → List ℤ)
        → map (λ r. r.now) rows.now ≡ map totals agents.old.items → born.items
        ≡ children (filter_map result_ok (map (becomes_by plans.now seed tick totals)
        agents.old.items))) }
    ensures quiet { IfOk result (λ _. (totals : Agent → List ℤ)
        → map (λ r. r.now) rows.now ≡ map totals agents.old.items
        → filter_map result_err (map (becomes_by plans.now seed tick totals) agents.old.items)
        ≡ []) }
    ensures kept { IfErr result (λ _. agents.new.items ≡ agents.old.items) }
{
    if rows.len() != agents.len() || !pays(agents.as_slice()) {
        return Err(Redo);
    }
    let ground = Ground {
        alloc,
        plans,
        seed,
        tick,
    };
    let mut born = Vec::new(alloc);
    let batches = batches_of(&ground, agents.as_slice(), rows, &mut born)?;
    let left = Vec::with_capacity(alloc, agents.len())?;
    let old = mem::replace(agents, left);
    leave(&batches, old, agents);
    Ok(born)
}
