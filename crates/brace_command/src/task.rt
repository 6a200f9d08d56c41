//! A task, which is a run by parts or a trial, and how it is answered.
ghost use Rattle.std.specs.Prelude.{◌≡◌, ◌<◌, None, true, false};
ghost use Rattle.brace_command.specs.Answer.{CountsWrites, sink_call};
ghost use Rattle.brace_command.specs.Messages.{fault_message};
ghost use Rattle.brace_command.specs.Status.{has_run};
ghost use Rattle.brace_command.specs.Settled.{IsWritten, IsToldAs, told_counts, is_plain_work, outcome_of, saves_in, saves_files, status_in, message_in};

use crate::answer::{Answer, Stopped};
use crate::command::TrialCommand;
use crate::messages::{fault_message, stats_message};
use crate::status::Status;
use brace_io::Sink;
use brace_model::Fault;
use brace_pieces::{Counts, Setting};
use brace_watch::Watch;
use std::alloc::Global;

/// A run that can begin, or a trial.
#[derive(Drop)]
pub struct Task<'a> {
    pub setting: Setting,
    /// The number that draws the order of the parts' work.
    pub order: u64,
    /// Whether the first tick is published as any other.
    pub fresh: bool,
    /// The world of the end k of an epoch is saved as `NAME.k`, where this is NAME.
    pub save: Option<&'a str>,
    /// The figures up to the end k of an epoch are saved as `NAME.k`, where this is NAME.
    pub watch: Option<&'a str>,
    /// The figures that are watched.
    pub watches: Vec<Watch>,
    /// The letters of a link, over which one worker runs the parts; without them these exchange
    /// pieces in memory.
    pub link: Option<&'a str>,
    /// Whether counts are told at the end.
    pub stats: bool,
    /// The trial that it is, which writes no rows, but the line of its last world.
    pub trial: Option<TrialCommand>,
}

impl<'a> Task<'a> {
    /// Whether it saves files.
    pub fn saves(&self) -> bool
        ensures { result ≡ saves_files (saves_in self.now) }
    {
        self.save.is_some() || self.watch.is_some()
    }
}

/// The answer of a run that came to its last tick, with its counts where they are to be told.
pub fn done(alloc: Global, stats: bool, counts: &Counts) -> Result<Answer, Stopped>
    ensures { IsToldAs Status.Done (told_counts stats counts.now) result }
{
    let message = if stats {
        stats_message(alloc, counts)?
    } else {
        Vec::new(alloc)
    };
    Ok(Answer {
        status: Status::Done,
        message,
    })
}

/// The answer of a run that ended in a fault.
pub fn faulted(alloc: Global, fault: &Fault) -> Result<Answer, Stopped>
    ensures { IsToldAs Status.Fault (fault_message fault.now) result }
{
    Ok(Answer {
        status: Status::Fault,
        message: fault_message(alloc, fault)?,
    })
}

/// Answers a run that would begin behind its last tick: nothing is published and nothing saved.
pub fn run_none<O: Sink>(alloc: Global, task: &Task, out: &mut O) -> Result<Answer, Stopped>
    requires behind { task.now.setting.job.last < task.now.setting.job.first }
    requires resumed { task.now.fresh ≡ false }
    requires no_trial { task.now.trial ≡ None }
    ensures written { IsWritten (λ o. o ≡ outcome_of task.now) (sink_call O.Sink out.old out.new)
        (message_in result) (status_in result) }
    ensures work { is_plain_work (status_in result) ≡ true }
    ensures writes { CountsWrites (sink_call O.Sink out.old out.new) (status_in result) }
    ensures clean { has_run (status_in result) ≡ true → O.clean out.new ≡ true }
{
    out.flush()?;
    done(alloc, task.stats, &Counts::none())
}
