//! How a task is carried out, on one worker or on several.
ghost use Rattle.std.specs.Prelude.{◌≡◌, ◌≤◌, ℤ, [], None, Err, true};
ghost use Rattle.brace_model.specs.Run.{end_of};
ghost use Rattle.brace_pieces.specs.declared.setting.Setting.{Setting};
ghost use Rattle.brace_crew.specs.Came.{CameTo};
ghost use Rattle.brace_command.specs.Answer.{CountsWrites, sink_call};
ghost use Rattle.brace_command.specs.Commands as asked;
ghost use Rattle.brace_command.specs.Outcome.{trial_end};
ghost use Rattle.brace_command.specs.declared.status.Status.TheVariants.{Done};
ghost use Rattle.brace_command.specs.Status.{has_run};
ghost use Rattle.brace_command.specs.Trials.{trial_line};
ghost use Rattle.brace_command.specs.Prepared.{CanRun};
ghost use Rattle.brace_command.specs.Settled.{IsRunOf, IsWritten, keeper_call, told_counts, is_plain_work, status_in, message_in};
ghost use Rattle.brace_command.specs.Words.{said_trial};

use crate::links::crew_run_linked_by;
use crate::settle::settle;
use crate::team::{Team, crew_run_on};
use brace_command::{Answer, Stopped, Task, TrialCommand, done, faulted, trial_line};
use brace_crew::{CrewFault, crew_run_on_one};
use brace_desk::{File, FilePublisher, Keeper, Publisher, SumPublisher, WatchPublisher};
use brace_io::{Failed, Gate, Sink, write_whole};
use brace_model::Fault;
use brace_pieces::Counts;
use std::alloc::Global;
use std::sync::Wait;
use std::thread::Threads;

/// Writes the line of a trial that came to its last tick.
fn tell_trial<O: Sink>(
    alloc: Global,
    trial: &TrialCommand,
    sums: (i128, i128),
    counts: &Counts,
    out: &mut O,
) -> Result<Answer, Stopped>
    ensures written { IsWritten (λ o. o ≡ (record {
      status = Done;
      out = trial_line trial.now.count trial.now.ticks sums;
      err = told_counts trial.now.manner.stats counts.now;
      saved = [];
    })) (sink_call O.Sink out.old out.new) (message_in result) (status_in result) }
    ensures work { is_plain_work (status_in result) ≡ true }
    ensures writes { CountsWrites (sink_call O.Sink out.old out.new) (status_in result) }
    ensures clean { has_run (status_in result) ≡ true → O.clean out.new ≡ true }
{
    let line = trial_line(alloc, trial, sums)?;
    let answer = done(alloc, trial.manner.stats, counts)?;
    write_whole(out, line.as_slice())?;
    out.flush()?;
    Ok(answer)
}

/// Ends a trial in its fault; nothing is written.
fn end_in_fault<O: Sink>(alloc: Global, fault: &Fault, out: &mut O) -> Result<Answer, Stopped>
    ensures written { (trial : asked.TrialCommand) (s : Setting) → IsWritten
        (λ o. o ≡ trial_end trial s (Err fault.now))
        (sink_call O.Sink out.old out.new) (message_in result) (status_in result) }
    ensures work { is_plain_work (status_in result) ≡ true }
    ensures writes { CountsWrites (sink_call O.Sink out.old out.new) (status_in result) }
    ensures clean { has_run (status_in result) ≡ true → O.clean out.new ≡ true }
{
    out.flush()?;
    faulted(alloc, fault)
}

/// Ends a trial by what its parts came to: writes the line of its last world, with these sums over
/// it, or nothing.
fn settle_trial<O: Sink>(
    alloc: Global,
    trial: &TrialCommand,
    sums: (i128, i128),
    came: Result<Counts, CrewFault>,
    out: &mut O,
) -> Result<Answer, Stopped>
    ensures written { (s : Setting) (opening : ℤ × ℤ) → s.job.first ≤ s.job.last
        → CameTo ⟦<SumPublisher as Publisher>⟧ s opening sums came
        → IsWritten (λ o. o ≡ trial_end (said_trial trial.now) s (end_of s.job))
        (sink_call O.Sink out.old out.new) (message_in result) (status_in result) }
    ensures work { is_plain_work (status_in result) ≡ true }
    ensures writes { CountsWrites (sink_call O.Sink out.old out.new) (status_in result) }
    ensures clean { has_run (status_in result) ≡ true → O.clean out.new ≡ true }
{
    match came {
        Ok(counts) => tell_trial(alloc, trial, sums, &counts, out),
        Err(CrewFault::Fault(fault)) => end_in_fault(alloc, &fault, out),
        Err(CrewFault::Publish(_) | CrewFault::NoMemory) => Err(Stopped::NoMemory),
    }
}

/// A keeper of no files, for a task that saves none: it has no shelf.
#[derive(Drop)]
pub struct NoKeeper;

impl Keeper for NoKeeper {
    ghost use Rattle.std.specs.Prelude.{[]};
    ghost use Rattle.brace_io.specs.Shelves.{Idle};

    ghost held = { λ _. None };

    ghost stage = { λ _. Idle };

    ghost faults = { λ _. 0 };

    ghost loans = { λ _. [] };

    fn save(&mut self, _: &File) -> Result<(), Failed> {
        Ok(())
    }
}

/// Carries a task out by its parts on one worker: writes the rows of published ticks, and has the
/// worlds of its ends and the figures that it watches saved, each where a name is given, or writes
/// the line of a trial. What stood on the sink before is flushed first.
pub fn crew_alone<K: Keeper, O: Sink>(
    alloc: Global,
    task: &Task,
    keeper: &mut K,
    out: &mut O,
) -> Result<Answer, Stopped>
    requires task { CanRun task.now }
    ensures run { IsRunOf O.Sink task.now (keeper_call K.Keeper keeper.old keeper.new)
        out.old out.new result }
    ensures same_loans { K.loans keeper.new ≡ K.loans keeper.old }
{
    if let Some(trial) = task.trial {
        let (publisher, came) = crew_run_on_one(
            alloc,
            &task.setting,
            task.order,
            SumPublisher::make(),
        );
        return settle_trial(alloc, &trial, publisher.sums(), came, out);
    }
    out.flush()?;
    let publisher = WatchPublisher {
        files: FilePublisher {
            out,
            keeper,
            save: &task.save,
            fresh: task.fresh,
        },
        watches: task.watches.as_slice(),
        name: &task.watch,
    };
    let both = crew_run_linked_by(alloc, &task.setting, task.order, task.link, publisher);
    settle(alloc, task, both.1)
}

/// Carries a task out on a team, as [`crew_alone`] does on one worker.
pub fn crew_on<R: Threads + Wait + Sync, G: Gate + Sync, K: Keeper + Send, O: Sink + Send>(
    team: &Team<R, G>,
    alloc: Global,
    task: &Task,
    keeper: &mut K,
    out: &mut O,
) -> Result<Answer, Stopped>
    requires some { 1 ≤ team.now.workers }
    requires few { team.now.workers ≤ 16 }
    requires task { CanRun task.now }
    ensures run { IsRunOf O.Sink task.now (keeper_call K.Keeper keeper.old keeper.new)
        out.old out.new result }
    ensures same_loans { K.loans keeper.new ≡ K.loans keeper.old }
{
    if let Some(trial) = task.trial {
        let (publisher, came) = crew_run_on(
            team,
            alloc,
            &task.setting,
            task.order,
            None,
            SumPublisher::make(),
        );
        return settle_trial(alloc, &trial, publisher.sums(), came, out);
    }
    out.flush()?;
    let publisher = WatchPublisher {
        files: FilePublisher {
            out,
            keeper,
            save: &task.save,
            fresh: task.fresh,
        },
        watches: task.watches.as_slice(),
        name: &task.watch,
    };
    let both = crew_run_on(team, alloc, &task.setting, task.order, task.link, publisher);
    settle(alloc, task, both.1)
}
