ghost use Rattle.std.specs.Prelude.{◌≡◌, ◌<◌, ◌≤◌, ◌^◌, List, length, map, filter_map, slice_index_or, IsTrue, IfOk, IfErr, None};
ghost use Rattle.std.specs.List.{list_all};
ghost use Rattle.std.specs.Result.{result_ok, result_err};
ghost use Rattle.brace_model.specs.declared.fault.Fault.{Fault};
ghost use Rattle.brace_model.specs.FaultOrder.{least};
ghost use Rattle.brace_model.specs.Lawful.{is_lawful_agent};
ghost use Rattle.brace_model.specs.Query.{Saying};
ghost use Rattle.brace_model.specs.Step.{living, children};
ghost use Rattle.brace_cuts.specs.CutPlans.{IsPlan};
ghost use Rattle.brace_cuts.specs.Space.{LawfulCuts};
ghost use Rattle.brace_eval.specs.Heard.{IsHeard, row_of};
ghost use Rattle.brace_eval.specs.inner.Updates.{with_one};
ghost use Rattle.brace_pieces.specs.Settings.{cuts_of};
ghost use Rattle.brace_pieces.specs.Continued.{becomes};
ghost use Rattle.brace_pieces.specs.Owned.{owned};
ghost use Rattle.brace_herd.specs.Works.{IsCauseOf};
ghost use Rattle.brace_herd.specs.inner.Asked.{HasRulesOf};

use crate::gather::kept;
use brace_cuts::Cuts;
use brace_eval::Heard;
use brace_fold::{Redo, renew};
use brace_model::{Agent, Fault, Left, Program, with_earlier};
use brace_num::NoMemory;
use brace_pieces::{Cause, Setting, owns};
use brace_plan::{LeaveFault, Plans, Room};
use std::alloc::Global;

/// Adds an agent, where there is one.
fn add(agents: &mut Vec<Agent>, agent: Option<Agent>) -> Result<(), NoMemory>
    ensures { IfOk result (λ _. agents.new.items ≡ with_one agents.old.items agent) }
{
    if let Some(agent) = agent {
        agents.push(agent)?;
    }
    Ok(())
}

/// Adds what one more agent leaves.
fn keep(left: &mut Vec<Agent>, born: &mut Vec<Agent>, next: Left) -> Result<(), NoMemory>
    ensures left { IfOk result (λ _. left.new.items ≡ with_one left.old.items next.agent) }
    ensures born { IfOk result (λ _. born.new.items ≡ with_one born.old.items next.child) }
{
    let Left { agent, child } = next;
    add(left, agent)?;
    add(born, child)
}

/// The totals of those of some agents that a part owns under some cuts, a row for each.
fn own_rows<'a>(
    alloc: Global,
    program: &Program,
    cuts: &Cuts,
    part: u32,
    held: &[Agent],
    heard: &'a Heard,
) -> Result<Vec<&'a [i128]>, NoMemory>
    requires { LawfulCuts cuts.now }
    ensures long { IfOk result (λ rows.
        length rows.items ≡ length (owned program.now cuts.now part held.now)) }
    ensures totals { IfOk result (λ rows. (said : List Saying) (faults : List Fault)
        → IsHeard program.now held.now said faults heard.now → map (λ r. r.now) rows.items
        ≡ map (row_of program.now said) (owned program.now cuts.now part held.now)) }
{
    let mut rows = Vec::with_capacity(alloc, held.len())?;
    for i in 0..held.len() {
        if owns(program, cuts, part, &held[i]) {
            let (totals, _) = heard.row(program, held, i);
            rows.push(totals)?;
        }
    }
    Ok(rows)
}

/// What the agents of a part leave, by rising id, those that live on and the children, or the least
/// fault of their updates. What was heard is of all that the part holds; the rules of the script
/// are run by plans that have them.
pub fn updated(
    alloc: Global,
    setting: &Setting,
    tick: u64,
    part: u32,
    plans: &Plans,
    held: Vec<Agent>,
    heard: &Heard,
) -> Result<(Vec<Agent>, Vec<Agent>), Cause>
    requires rules { HasRulesOf setting.now.job.program plans.now }
    requires agents { IsTrue (list_all (is_lawful_agent setting.now.job.program) held.items) }
    requires plan { IsPlan setting.now.epoch setting.now.cuts }
    requires ticks { tick ≤ 2 ^ 32 }
    ensures left { IfOk result (λ left. (said : List Saying) (faults : List Fault)
        → IsHeard setting.now.job.program held.items said faults heard.now
        → left.0.items ≡ living (filter_map result_ok (map (becomes setting.now tick said)
        (owned setting.now.job.program (cuts_of setting.now tick) part held.items)))) }
    ensures born { IfOk result (λ left. (said : List Saying) (faults : List Fault)
        → IsHeard setting.now.job.program held.items said faults heard.now
        → left.1.items ≡ children (filter_map result_ok (map (becomes setting.now tick said)
        (owned setting.now.job.program (cuts_of setting.now tick) part held.items)))) }
    ensures passes { IfOk result (λ left. (said : List Saying) (faults : List Fault)
        → IsHeard setting.now.job.program held.items said faults heard.now
        → least (filter_map result_err (map (becomes setting.now tick said)
        (owned setting.now.job.program (cuts_of setting.now tick) part held.items))) ≡ None) }
    ensures faulted { IfErr result (λ c. (said : List Saying) (faults : List Fault)
        → IsHeard setting.now.job.program held.items said faults heard.now
        → IsCauseOf (filter_map result_err (map (becomes setting.now tick said)
        (owned setting.now.job.program (cuts_of setting.now tick) part held.items))) c) }
{
    let job = &setting.job;
    let cuts = setting.cuts.cuts_at(tick);
    let rows = own_rows(alloc, &job.program, cuts, part, &held, heard)?;
    let mut own = kept(&job.program, cuts, part, held);
    match renew(alloc, plans, job.seed, tick, &mut own, &rows) {
        Ok(born) => Ok((own, born)),
        Err(Redo) => updated_in_turn(alloc, setting, tick, plans, &own, &rows),
    }
}

/// The row at a place.
fn row_at<'a>(rows: &[&'a [i128]], place: usize) -> &'a [i128]
    requires { place < length rows.now }
    ensures { result.now ≡ (slice_index_or rows.now place result).now }
{
    rows[place]
}

/// What agents leave, each by a row of its totals, those that live on and the children, or the
/// least fault of their updates, agent by agent.
fn updated_in_turn(
    alloc: Global,
    setting: &Setting,
    tick: u64,
    plans: &Plans,
    own: &[Agent],
    rows: &[&[i128]],
) -> Result<(Vec<Agent>, Vec<Agent>), Cause>
    requires rules { HasRulesOf setting.now.job.program plans.now }
    requires agents { IsTrue (list_all (is_lawful_agent setting.now.job.program) own.now) }
    requires rows { length rows.now ≡ length own.now }
    requires ticks { tick ≤ 2 ^ 32 }
    ensures left { IfOk result (λ left. (said : List Saying)
        → map (λ r. r.now) rows.now ≡ map (row_of setting.now.job.program said) own.now
        → left.0.items
        ≡ living (filter_map result_ok (map (becomes setting.now tick said) own.now))) }
    ensures born { IfOk result (λ left. (said : List Saying)
        → map (λ r. r.now) rows.now ≡ map (row_of setting.now.job.program said) own.now
        → left.1.items
        ≡ children (filter_map result_ok (map (becomes setting.now tick said) own.now))) }
    ensures passes { IfOk result (λ left. (said : List Saying)
        → map (λ r. r.now) rows.now ≡ map (row_of setting.now.job.program said) own.now
        → least (filter_map result_err (map (becomes setting.now tick said) own.now)) ≡ None) }
    ensures faulted { IfErr result (λ c. (said : List Saying)
        → map (λ r. r.now) rows.now ≡ map (row_of setting.now.job.program said) own.now
        → IsCauseOf (filter_map result_err (map (becomes setting.now tick said) own.now)) c) }
{
    let mut room = Room::make(alloc, setting.job.seed)?;
    let mut left = Vec::new(alloc);
    let mut born = Vec::new(alloc);
    let mut least = None;
    for i in 0..own.len() {
        let totals = row_at(rows, i);
        match plans.left_by(alloc, tick, &own[i], totals, &mut room) {
            Ok(next) => keep(&mut left, &mut born, next)?,
            Err(LeaveFault::Fault(fault)) => least = Some(with_earlier(least, fault)),
            Err(LeaveFault::NoMemory) => return Err(Cause::NoMemory),
        }
    }
    match least {
        None => Ok((left, born)),
        Some(fault) => Err(Cause::Fault(fault)),
    }
}
