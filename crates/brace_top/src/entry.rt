ghost use Rattle.std.specs.Prelude.{◌≡◌, ◌⊎◌, ◌<◌, ◌≤◌, map, string_bytes, IfSome, IfOk, IfErr, Some, None, Err, true, false};
ghost use Rattle.brace_words.specs.declared.fault.LineFault.TheVariants as fault;
ghost use Rattle.brace_io.specs.Shelves.{Idle, writes};
ghost use Rattle.brace_command.specs.declared.answer.Stopped.TheVariants as stopped;
ghost use Rattle.brace_command.specs.Answer.{IsAnswered, call_of, StopsShelf, CountsShelf, CountsReads, CountsWrites, shelf_call, sink_call};
ghost use Rattle.brace_command.specs.Commands.{command_of, may_save, workers_asked};
ghost use Rattle.brace_command.specs.Status.{has_run, is_refusal, saves_nothing, status_of, code_of};
ghost use Rattle.brace_command.specs.Prepared.{IsPrepared};
ghost use Rattle.brace_command.specs.Settled.{IsServed};
ghost use Rattle.brace_command.specs.Words.{said, IsInRange, IsReadAs, IsUnasked};

use crate::flow::{NoKeeper, crew_alone, crew_on};
use crate::team::Team;
use brace_command::{Answer, Command, Stopped, Work, command_in, prepare, say, workers_of};
use brace_desk::ShelfKeeper;
use brace_io::{Gate, Shelf, Sink};
use brace_words::{Line, LineFault, read_line};
use std::alloc::Global;
use std::sync::Wait;
use std::thread::Threads;

/// The command that words ask for, as they were read.
fn asked_command<'a>(
    words: &[String],
    line: &'a Result<Line, LineFault>,
) -> Result<Command<'a>, Stopped>
    requires { IsReadAs (map string_bytes words.now) line.now }
    ensures command { IfOk result
        (λ command. command_of (map string_bytes words.now) ≡ Some (said command)) }
    ensures range { IfOk result IsInRange }
    ensures none { IfErr result (IsUnasked (map string_bytes words.now)) }
    ensures no_memory { line.now ≡ Err fault.NoMemory → result ≡ Err stopped.NoMemory }
{
    match line {
        Ok(line) => command_in(line).ok_or(Stopped::Usage),
        Err(LineFault::Usage) => Err(Stopped::Usage),
        Err(LineFault::NoMemory) => Err(Stopped::NoMemory),
    }
}

/// Reads the files of the command that words ask for, and carries it out where it runs no part.
fn begin<'a, S: Shelf, O: Sink>(
    alloc: Global,
    words: &[String],
    line: &'a Result<Line, LineFault>,
    shelf: &mut S,
    out: &mut O,
) -> Result<Work<'a>, Stopped>
    requires stage { S.stage shelf.old ≡ Idle }
    requires line { IsReadAs (map string_bytes words.now) line.now }
    ensures prepared { IsPrepared S.Shelf O.Sink (command_of (map string_bytes words.now))
        shelf.old shelf.new out.old out.new result }
    ensures no_memory { line.now ≡ Err fault.NoMemory → result ≡ Err stopped.NoMemory }
    ensures not_writing { writes (S.stage shelf.new) ≡ false }
{
    let command = asked_command(words, line)?;
    prepare(alloc, &command, shelf, out)
}

/// Answers words on one worker, as they were read.
fn answer_alone<S: Shelf, O: Sink>(
    alloc: Global,
    words: &[String],
    line: &Result<Line, LineFault>,
    shelf: &mut S,
    out: &mut O,
) -> Result<Answer, Stopped>
    requires stage { S.stage shelf.old ≡ Idle }
    requires line { IsReadAs (map string_bytes words.now) line.now }
    ensures served { IsServed S.Shelf O.Sink (command_of (map string_bytes words.now))
        shelf.old shelf.new out.old out.new result }
    ensures no_memory { line.now ≡ Err fault.NoMemory → result ≡ Err stopped.NoMemory }
    ensures not_writing { writes (S.stage shelf.new) ≡ false }
{
    match begin(alloc, words, line, shelf, out)? {
        Work::Told(answer) => Ok(answer),
        Work::Plain(task) => crew_alone(alloc, &task, &mut NoKeeper, out),
        Work::Saving(task) => {
            let mut keeper = ShelfKeeper { shelf };
            crew_alone(alloc, &task, &mut keeper, out)
        }
    }
}

/// Answers words on a team, as [`answer_alone`] does on one worker.
fn answer_on<R: Threads + Wait + Sync, G: Gate + Sync, S: Shelf + Send, O: Sink + Send>(
    team: &Team<R, G>,
    alloc: Global,
    words: &[String],
    line: &Result<Line, LineFault>,
    shelf: &mut S,
    out: &mut O,
) -> Result<Answer, Stopped>
    requires some { 1 ≤ team.now.workers }
    requires few { team.now.workers ≤ 16 }
    requires stage { S.stage shelf.old ≡ Idle }
    requires line { IsReadAs (map string_bytes words.now) line.now }
    ensures served { IsServed S.Shelf O.Sink (command_of (map string_bytes words.now))
        shelf.old shelf.new out.old out.new result }
    ensures not_writing { writes (S.stage shelf.new) ≡ false }
{
    match begin(alloc, words, line, shelf, out)? {
        Work::Told(answer) => Ok(answer),
        Work::Plain(task) => crew_on(team, alloc, &task, &mut NoKeeper, out),
        Work::Saving(task) => {
            let mut keeper = ShelfKeeper { shelf };
            crew_on(team, alloc, &task, &mut keeper, out)
        }
    }
}

/// Carries a command out without a thread, and answers its status: a number of the table below. It
/// answers None, and nothing is touched, where the words ask for more workers than one.
///
/// | Status | When it comes |
/// |---|---|
/// | 0 | all was written |
/// | 2 | the words are no line |
/// | 3, 4, 5, 6 | the script, the agent file, the cut plan, the checkpoint is refused |
/// | 7 | the run ended in a fault before its last tick |
/// | 8 | a read failed |
/// | 9 | a write to `out` failed |
/// | 10 | a file was not saved |
/// | 11 | the allocator refused memory |
/// | 12 | a named file is not held |
/// | 13 | the published file differs from what a run publishes |
/// | 14 | the watch file is refused |
///
/// `words` are those after the program's name. Files are read from `shelf` and saved there, rows or
/// the canonical text go to `out`, and one line for each status other than 0 goes to `err`, whose
/// faults change no status; with 0 it is the line of the counts, where they are asked for.
pub fn run_alone<S: Shelf, O: Sink, E: Sink>(
    alloc: Global,
    words: &[String],
    shelf: &mut S,
    out: &mut O,
    err: &mut E,
) -> Option<u8>
    requires { S.stage shelf.old ≡ Idle }
    ensures several { result ≡ None → 1 < workers_asked (map string_bytes words.now) }
    ensures not_several { 1 < workers_asked (map string_bytes words.now)
        → IfSome result (λ code. code ≡ 11) }
    ensures same_shelf { result ≡ None → shelf.new ≡ shelf.old }
    ensures same_out { result ≡ None → out.new ≡ out.old }
    ensures same_err { result ≡ None → err.new ≡ err.old }
    ensures known { IfSome result (λ code. code_of (status_of code) ≡ code) }
    ensures answered { IfSome result (λ code. IsAnswered (call_of (map string_bytes words.now)
        (status_of code) (shelf_call S.Shelf shelf.old shelf.new)
        (sink_call O.Sink out.old out.new) (sink_call E.Sink err.old err.new))) }
    ensures usage { IfSome result
        (λ code. code ≡ 2 → command_of (map string_bytes words.now) ≡ None) }
    ensures no_command { command_of (map string_bytes words.now) ≡ None
        → IfSome result (λ code. (code ≡ 2) ⊎ (code ≡ 11)) }
    ensures counts { IfSome result
        (λ code. CountsShelf (shelf_call S.Shelf shelf.old shelf.new) (status_of code)) }
    ensures reads { may_save (command_of (map string_bytes words.now)) ≡ false
        → IfSome result
        (λ code. CountsReads (shelf_call S.Shelf shelf.old shelf.new) (status_of code)) }
    ensures stops { IfSome result
        (λ code. StopsShelf (shelf_call S.Shelf shelf.old shelf.new) (status_of code)) }
    ensures writes { IfSome result
        (λ code. CountsWrites (sink_call O.Sink out.old out.new) (status_of code)) }
    ensures untouched { IfSome result
        (λ code. is_refusal (status_of code) ≡ true → out.new ≡ out.old) }
    ensures untouched_by_usage { IfSome result (λ code. code ≡ 2 → out.new ≡ out.old) }
    ensures clean { IfSome result
        (λ code. has_run (status_of code) ≡ true → O.clean out.new ≡ true) }
    ensures unsaved { IfSome result (λ code. saves_nothing (status_of code) ≡ true
        → S.held shelf.new ≡ S.held shelf.old) }
    ensures not_writing { writes (S.stage shelf.new) ≡ false }
{
    let line = read_line(alloc, words);
    if workers_of(&line) > 1 {
        return None;
    }
    let answer = answer_alone(alloc, words, &line, shelf, out);
    Some(say(err, answer).code())
}

/// Carries a command out, and answers its status, as [`run_alone`] does. Where the words ask for
/// more workers than one, `rt` starts and joins their threads, and the call may wait; what is said
/// here holds where it returns. A worker passes `gate`, with its number from 0, before a part of
/// the plane evaluates its query of a tick.
pub fn run<R: Threads + Wait + Sync, S: Shelf + Send, O: Sink + Send, E: Sink, G: Gate + Sync>(
    rt: &R,
    alloc: Global,
    words: &[String],
    shelf: &mut S,
    out: &mut O,
    err: &mut E,
    gate: &G,
) -> u8
    requires { S.stage shelf.old ≡ Idle }
    ensures known { code_of (status_of result) ≡ result }
    ensures answered { IsAnswered (call_of (map string_bytes words.now) (status_of result)
        (shelf_call S.Shelf shelf.old shelf.new) (sink_call O.Sink out.old out.new)
        (sink_call E.Sink err.old err.new)) }
    ensures usage { result ≡ 2 → command_of (map string_bytes words.now) ≡ None }
    ensures no_command { command_of (map string_bytes words.now) ≡ None
        → (result ≡ 2) ⊎ (result ≡ 11) }
    ensures counts { CountsShelf (shelf_call S.Shelf shelf.old shelf.new) (status_of result) }
    ensures reads { may_save (command_of (map string_bytes words.now)) ≡ false
        → CountsReads (shelf_call S.Shelf shelf.old shelf.new) (status_of result) }
    ensures stops { StopsShelf (shelf_call S.Shelf shelf.old shelf.new) (status_of result) }
    ensures writes { CountsWrites (sink_call O.Sink out.old out.new) (status_of result) }
    ensures untouched { is_refusal (status_of result) ≡ true → out.new ≡ out.old }
    ensures untouched_by_usage { result ≡ 2 → out.new ≡ out.old }
    ensures clean { has_run (status_of result) ≡ true → O.clean out.new ≡ true }
    ensures unsaved { saves_nothing (status_of result) ≡ true
        → S.held shelf.new ≡ S.held shelf.old }
    ensures not_writing { writes (S.stage shelf.new) ≡ false }
{
    let line = read_line(alloc, words);
    let workers = workers_of(&line);
    let team = Team { rt, gate, workers };
    let answer = answer_on(&team, alloc, words, &line, shelf, out);
    say(err, answer).code()
}
