//! What is done for a command before its parts are run.
ghost use Rattle.std.specs.Prelude.{◌≡◌, ◌≤◌, [], codes, None, Some, IfOk, IfSome, MatchResult, true, false};
ghost use Rattle.brace_io.specs.Shelves.{writes};
ghost use Rattle.brace_model.specs.Lawful.{LawfulProgram, LawfulAgents, LawfulJob};
ghost use Rattle.brace_save.specs.Lines.{moment_of};
ghost use Rattle.brace_words.specs.Values.{is_link};
ghost use Rattle.brace_command.specs.Answer.{CountsWrites, sink_call};
ghost use Rattle.brace_command.specs.Commands as asked;
ghost use Rattle.brace_command.specs.Commands.{is_anew, may_save};
ghost use Rattle.brace_command.specs.Outcome.{agreed, audit_job, shown, told, saves_of, setting_of, ran};
ghost use Rattle.brace_command.specs.Status.{has_run};
ghost use Rattle.brace_command.specs.Prepared.{IsPrepared, IsReady, IsStoppedBefore};
ghost use Rattle.brace_command.specs.Settled.{IsServed, IsWritten, is_plain_work, outcome_of, saves_in, saves_files, status_in, message_in};
ghost use Rattle.brace_command.specs.Words.{said, said_audit, said_balance, said_run, said_start, said_trial, IsAuditInRange, IsBalanceInRange, IsInRange, IsRunInRange, IsTrialInRange};

use crate::answer::{Answer, Stopped};
use crate::command::{AuditCommand, BalanceCommand, Command, RunCommand, Start, TrialCommand};
use crate::load::{
    load_cuts, load_program, load_script, load_start, load_tree, load_trial, load_world,
};
use crate::messages::fault_message;
use crate::plan_text::plan_text;
use crate::published::load_published;
use crate::status::Status;
use crate::strips::balanced_strips;
use crate::task::{Task, run_none};
use crate::trial::{has_four_fixed, trial_setting};
use crate::watches::load_watches;
use brace_cuts::CutPlan;
use brace_io::{Shelf, Sink, write_whole};
use brace_model::{Fault, Job, Program, World};
use brace_pieces::Setting;
use brace_save::Point;
use brace_show::show;
use brace_watch::Watch;
use std::alloc::Global;

/// What is left of a command whose files are read.
#[derive(Drop)]
pub enum Work<'a> {
    /// Nothing: its text is written.
    Told(Answer),
    /// A task that saves nothing, of at least its first tick.
    Plain(Task<'a>),
    /// A task that saves files, of at least its first tick.
    Saving(Task<'a>),
}

/// Writes a text that is all that a command writes, and answers it with a message.
fn write_told<O: Sink>(text: &[u8], message: Vec<u8>, out: &mut O) -> Result<Answer, Stopped>
    ensures written { IsWritten (λ o. o ≡ told text.now message.items)
        (sink_call O.Sink out.old out.new) (message_in result) (status_in result) }
    ensures work { is_plain_work (status_in result) ≡ true }
    ensures writes { CountsWrites (sink_call O.Sink out.old out.new) (status_in result) }
    ensures clean { has_run (status_in result) ≡ true → O.clean out.new ≡ true }
{
    write_whole(out, text)?;
    out.flush()?;
    Ok(Answer {
        status: Status::Done,
        message,
    })
}

/// Writes a text that is all that a command writes.
fn write_text<O: Sink>(alloc: Global, text: &[u8], out: &mut O) -> Result<Answer, Stopped>
    ensures written { IsWritten (λ o. o ≡ shown text.now) (sink_call O.Sink out.old out.new)
        (message_in result) (status_in result) }
    ensures work { is_plain_work (status_in result) ≡ true }
    ensures writes { CountsWrites (sink_call O.Sink out.old out.new) (status_in result) }
    ensures clean { has_run (status_in result) ≡ true → O.clean out.new ≡ true }
{
    write_told(text, Vec::new(alloc), out)
}

/// Writes the canonical text of a script.
fn format_script<S: Shelf, O: Sink>(
    alloc: Global,
    name: &str,
    shelf: &mut S,
    out: &mut O,
) -> Result<Answer, Stopped>
    requires stage { writes (S.stage shelf.old) ≡ false }
    ensures served { IsServed S.Shelf O.Sink (Some (asked.Format name.now))
        shelf.old shelf.new out.old out.new result }
    ensures held { S.held shelf.new ≡ S.held shelf.old }
    ensures not_writing { writes (S.stage shelf.new) ≡ false }
{
    let tree = load_tree(alloc, shelf, name)?;
    let text = show(alloc, &tree)?;
    write_text(alloc, text.as_slice(), out)
}

/// Checks a script, and writes nothing.
fn check_script<S: Shelf, O: Sink>(
    alloc: Global,
    name: &str,
    shelf: &mut S,
    out: &mut O,
) -> Result<Answer, Stopped>
    requires stage { writes (S.stage shelf.old) ≡ false }
    ensures served { IsServed S.Shelf O.Sink (Some (asked.Check name.now))
        shelf.old shelf.new out.old out.new result }
    ensures held { S.held shelf.new ≡ S.held shelf.old }
    ensures not_writing { writes (S.stage shelf.new) ≡ false }
{
    let _program = load_program(alloc, shelf, name)?;
    write_text(alloc, b"", out)
}

/// Tells how a script is run, with inversion or without.
fn plan_script<S: Shelf, O: Sink>(
    alloc: Global,
    name: &str,
    invert: bool,
    shelf: &mut S,
    out: &mut O,
) -> Result<Answer, Stopped>
    requires stage { writes (S.stage shelf.old) ≡ false }
    ensures served { IsServed S.Shelf O.Sink (Some (asked.Planning name.now invert))
        shelf.old shelf.new out.old out.new result }
    ensures held { S.held shelf.new ≡ S.held shelf.old }
    ensures not_writing { writes (S.stage shelf.new) ≡ false }
{
    let script = load_script(alloc, shelf, name)?;
    let text = plan_text(alloc, script.source.as_slice(), &script.program, invert)?;
    write_text(alloc, text.as_slice(), out)
}

/// Writes the line of a cut plan of balanced strips over the agents of a file, with the certificate
/// of their load for a message.
fn balance_agents<S: Shelf, O: Sink>(
    alloc: Global,
    balance: &BalanceCommand,
    shelf: &mut S,
    out: &mut O,
) -> Result<Answer, Stopped>
    requires stage { writes (S.stage shelf.old) ≡ false }
    requires range { IsBalanceInRange balance.now }
    ensures served { IsServed S.Shelf O.Sink (Some (asked.Balancing (said_balance balance.now)))
        shelf.old shelf.new out.old out.new result }
    ensures held { S.held shelf.new ≡ S.held shelf.old }
    ensures not_writing { writes (S.stage shelf.new) ≡ false }
{
    let program = load_program(alloc, shelf, balance.script)?;
    let world = load_world(alloc, shelf, &program, balance.agents)?;
    let strips = balanced_strips(alloc, &program, &world, balance.strips)?;
    let certificate = strips.certificate;
    write_told(strips.plan.as_slice(), certificate, out)
}

/// The job that an audit compares.
fn audit_job(audit: &AuditCommand, program: Program, start: World) -> Job
    ensures job { result ≡ audit_job (said_audit audit.now) program start }
    ensures lawful { IsAuditInRange audit.now → LawfulProgram program
        → LawfulAgents program start.agents → LawfulJob result }
{
    Job {
        program,
        seed: audit.seed,
        first: 0,
        last: audit.ticks,
        every: audit.every,
        start,
    }
}

/// Writes that a file is what a run publishes that ended in this fault.
fn agree_in_fault<O: Sink>(alloc: Global, fault: &Fault, out: &mut O) -> Result<Answer, Stopped>
    ensures written { IsWritten (λ o. o ≡ agreed (Some fault.now))
        (sink_call O.Sink out.old out.new) (message_in result) (status_in result) }
    ensures work { is_plain_work (status_in result) ≡ true }
    ensures writes { CountsWrites (sink_call O.Sink out.old out.new) (status_in result) }
    ensures clean { has_run (status_in result) ≡ true → O.clean out.new ≡ true }
{
    let message = fault_message(alloc, fault)?;
    write_whole(out, b"audit yes\n")?;
    out.flush()?;
    Ok(Answer {
        status: Status::Fault,
        message,
    })
}

/// Writes that a file is what a run publishes that ended in this fault, if in any.
fn agree<O: Sink>(alloc: Global, found: Option<Fault>, out: &mut O) -> Result<Answer, Stopped>
    ensures written { IsWritten (λ o. o ≡ agreed found) (sink_call O.Sink out.old out.new)
        (message_in result) (status_in result) }
    ensures work { is_plain_work (status_in result) ≡ true }
    ensures writes { CountsWrites (sink_call O.Sink out.old out.new) (status_in result) }
    ensures clean { has_run (status_in result) ≡ true → O.clean out.new ≡ true }
{
    match found {
        None => write_text(alloc, b"audit yes\n", out),
        Some(fault) => agree_in_fault(alloc, &fault, out),
    }
}

/// Tells whether a file is what a run publishes.
fn audit_file<S: Shelf, O: Sink>(
    alloc: Global,
    audit: &AuditCommand,
    shelf: &mut S,
    out: &mut O,
) -> Result<Answer, Stopped>
    requires stage { writes (S.stage shelf.old) ≡ false }
    requires range { IsAuditInRange audit.now }
    ensures served { IsServed S.Shelf O.Sink (Some (asked.Auditing (said_audit audit.now)))
        shelf.old shelf.new out.old out.new result }
    ensures held { S.held shelf.new ≡ S.held shelf.old }
    ensures not_writing { writes (S.stage shelf.new) ≡ false }
{
    let program = load_program(alloc, shelf, audit.script)?;
    let start = load_world(alloc, shelf, &program, audit.agents)?;
    let job = audit_job(audit, program, start);
    let found = load_published(alloc, shelf, &job, audit.published)?;
    agree(alloc, found, out)
}

/// A run that can begin at a moment.
fn task_of<'a>(
    run: &RunCommand<'a>,
    program: Program,
    point: Point,
    cuts: CutPlan,
    watches: Vec<Watch>,
) -> Task<'a>
    ensures setting { result.setting
        ≡ setting_of (said_run run.now) program (moment_of point) cuts }
    ensures outcome { outcome_of result ≡ ran run.now.manner.stats
        (saves_of (said_run run.now) watches.items) (is_anew (said_start run.now.start))
        result.setting }
    ensures fresh { result.fresh ≡ is_anew (said_start run.now.start) }
    ensures watches { result.watches.items ≡ watches.items }
    ensures saves { may_save (Some (asked.Run (said_run run.now)))
        ≡ saves_files (saves_in result) }
    ensures link { IsRunInRange run.now
        → IfSome result.link (λ letters. is_link letters.now ≡ true) }
    ensures no_trial { result.trial ≡ None }
{
    let job = Job {
        program,
        seed: point.seed,
        first: point.tick,
        last: run.ticks,
        every: run.every,
        start: point.world,
    };
    Task {
        setting: Setting {
            job,
            cuts,
            epoch: run.manner.epoch,
            invert: run.manner.invert,
        },
        order: run.manner.order,
        fresh: matches!(run.start, Start::Anew(..)),
        save: run.save,
        watch: run.watch,
        watches,
        link: run.link,
        stats: run.manner.stats,
        trial: None,
    }
}

/// The run of a script.
fn load_task<'a, S: Shelf>(
    alloc: Global,
    run: &RunCommand<'a>,
    shelf: &mut S,
) -> Result<Task<'a>, Stopped>
    requires stage { writes (S.stage shelf.old) ≡ false }
    requires range { IsRunInRange run.now }
    ensures ready { MatchResult result
        (IsReady S.Shelf (Some (asked.Run (said_run run.now))) shelf.old shelf.new)
        (IsStoppedBefore S.Shelf (asked.Run (said_run run.now)) shelf.old shelf.new) }
    ensures begins { IfOk result (λ task. task.fresh ≡ true
        → task.setting.job.first ≤ task.setting.job.last) }
    ensures no_trial { IfOk result (λ task. task.trial ≡ None) }
    ensures not_writing { writes (S.stage shelf.new) ≡ false }
{
    let program = load_program(alloc, shelf, run.script)?;
    let point = load_start(alloc, shelf, &program, &run.start)?;
    let cuts = load_cuts(alloc, shelf, run.cuts, run.manner.epoch)?;
    let watches = load_watches(alloc, shelf, &program, run.watch)?;
    Ok(task_of(run, program, point, cuts, watches))
}

/// Reads the files of a run, and answers one that would begin behind its last tick.
fn ready_run<'a, S: Shelf, O: Sink>(
    alloc: Global,
    run: &RunCommand<'a>,
    shelf: &mut S,
    out: &mut O,
) -> Result<Work<'a>, Stopped>
    requires stage { writes (S.stage shelf.old) ≡ false }
    requires range { IsRunInRange run.now }
    ensures prepared { IsPrepared S.Shelf O.Sink (Some (asked.Run (said_run run.now)))
        shelf.old shelf.new out.old out.new result }
    ensures not_writing { writes (S.stage shelf.new) ≡ false }
{
    let task = load_task(alloc, run, shelf)?;
    let job = &task.setting.job;
    if job.last < job.first {
        let answer = run_none(alloc, &task, out)?;
        return Ok(Work::Told(answer));
    }
    if task.saves() {
        return Ok(Work::Saving(task));
    }
    Ok(Work::Plain(task))
}

/// The trial of the program's own script over made agents; no file is read. That script has a class
/// of four fixed states; want of memory is answered for any other.
fn ready_trial<'a, S: Shelf>(
    alloc: Global,
    trial: &TrialCommand,
    shelf: &S,
) -> Result<Task<'a>, Stopped>
    requires { IsTrialInRange trial.now }
    ensures ready { MatchResult result
        (IsReady S.Shelf (Some (asked.Trial (said_trial trial.now))) shelf.now shelf.now)
        (IsStoppedBefore S.Shelf (asked.Trial (said_trial trial.now)) shelf.now shelf.now) }
    ensures begins { IfOk result (λ task. task.setting.job.first ≤ task.setting.job.last) }
    ensures plain { IfOk result (λ task. saves_files (saves_in task) ≡ false) }
{
    let program = load_trial(alloc)?;
    if !has_four_fixed(&program) {
        return Err(Stopped::NoMemory);
    }
    let setting = trial_setting(alloc, trial, program)?;
    Ok(Task {
        setting,
        order: trial.manner.order,
        fresh: true,
        save: None,
        watch: None,
        watches: Vec::new(alloc),
        link: None,
        stats: trial.manner.stats,
        trial: Some(*trial),
    })
}

/// Reads the files of a command, whose numbers are in range, from a shelf that writes nothing, and
/// carries it out where it runs no part. Of a run and of a trial a task is left, of which nothing
/// was written. It stops where a file is refused, a read or a write failed, or memory was refused.
pub fn prepare<'a, S: Shelf, O: Sink>(
    alloc: Global,
    command: &Command<'a>,
    shelf: &mut S,
    out: &mut O,
) -> Result<Work<'a>, Stopped>
    requires stage { writes (S.stage shelf.old) ≡ false }
    requires range { IsInRange command.now }
    ensures prepared { IsPrepared S.Shelf O.Sink (Some (said command.now))
        shelf.old shelf.new out.old out.new result }
    ensures not_writing { writes (S.stage shelf.new) ≡ false }
{
    match command {
        Command::Run(run) => ready_run(alloc, run, shelf, out),
        Command::Format(name) => Ok(Work::Told(format_script(alloc, name, shelf, out)?)),
        Command::Check(name) => Ok(Work::Told(check_script(alloc, name, shelf, out)?)),
        Command::Plan(name, invert) => {
            Ok(Work::Told(plan_script(alloc, name, *invert, shelf, out)?))
        }
        Command::Trial(trial) => Ok(Work::Plain(ready_trial(alloc, trial, shelf)?)),
        Command::Balance(balance) => Ok(Work::Told(balance_agents(alloc, balance, shelf, out)?)),
        Command::Audit(audit) => Ok(Work::Told(audit_file(alloc, audit, shelf, out)?)),
    }
}
