//! What the watch file of a run comes to.
ghost use Rattle.std.specs.Prelude.{◌≡◌, [], option_map, unwrap_or, Some, None, IfOk, IfErr, MatchResult, false};
ghost use Rattle.brace_io.specs.Shelves.{writes};
ghost use Rattle.brace_watch.specs.Watches.{AreWatches};
ghost use Rattle.brace_command.specs.Answer.{shelf_call};
ghost use Rattle.brace_command.specs.Outcome.{watches_of};
ghost use Rattle.brace_command.specs.declared.status.Status.TheVariants.{ReadFault};
ghost use Rattle.brace_command.specs.Settled.{IsLoaded, IsUnloaded, IsWatchRefused, stopped_status};

use crate::answer::{Stopped, refuse};
use crate::limits::WATCH_LIMIT;
use crate::load::load_file;
use crate::messages::{line_message, watch_word};
use crate::status::Status;
use brace_io::Shelf;
use brace_model::Program;
use brace_watch::{Watch, WatchFault, read_watch};
use std::alloc::Global;

/// The refusal of a watch file for the fault of a line.
fn refuse_watch(alloc: Global, name: &str, fault: WatchFault) -> Stopped
    ensures { IsWatchRefused name.now fault result }
{
    match fault {
        WatchFault::Bad(number, kind) => {
            let message = line_message(alloc, name, number, watch_word(kind));
            refuse(Status::Watches, message)
        }
        WatchFault::NoMemory => Stopped::NoMemory,
    }
}

/// What the watch file of a name asks for in the runs of a program.
fn load_watch<S: Shelf>(
    alloc: Global,
    shelf: &mut S,
    program: &Program,
    name: &str,
) -> Result<Vec<Watch>, Stopped>
    requires stage { writes (S.stage shelf.old) ≡ false }
    ensures loads { MatchResult result
        (λ watches. IsLoaded (λ files found. watches_of files program.now (Some name.now) ≡ found)
        (shelf_call S.Shelf shelf.old shelf.new) watches.items)
        (IsUnloaded (λ files found. watches_of files program.now (Some name.now) ≡ found) name.now
        (shelf_call S.Shelf shelf.old shelf.new)) }
    ensures asked { IfOk result (λ watches. AreWatches program.now watches.items) }
    ensures held { S.held shelf.new ≡ S.held shelf.old }
    ensures not_writing { writes (S.stage shelf.new) ≡ false }
{
    let bytes = load_file(alloc, shelf, name, WATCH_LIMIT, Status::Watches)?;
    match read_watch(alloc, program, bytes.as_slice()) {
        Ok(watches) => Ok(watches),
        Err(fault) => Err(refuse_watch(alloc, name, fault)),
    }
}

/// What a watch file asks for in the runs of a program, if one is named.
pub fn load_watches<S: Shelf>(
    alloc: Global,
    shelf: &mut S,
    program: &Program,
    name: Option<&str>,
) -> Result<Vec<Watch>, Stopped>
    requires stage { writes (S.stage shelf.old) ≡ false }
    ensures loads { MatchResult result
        (λ watches. IsLoaded (λ files found. watches_of files program.now
        (option_map (λ n. n.now) name.entry) ≡ found)
        (shelf_call S.Shelf shelf.old shelf.new) watches.items)
        (IsUnloaded (λ files found. watches_of files program.now
        (option_map (λ n. n.now) name.entry) ≡ found)
        (unwrap_or (option_map (λ n. n.now) name.entry) [])
        (shelf_call S.Shelf shelf.old shelf.new)) }
    ensures unread { name.entry ≡ None
        → IfErr result (λ stopped. stopped_status stopped ≡ ReadFault → ⊥) }
    ensures asked { IfOk result (λ watches. AreWatches program.now watches.items) }
    ensures held { S.held shelf.new ≡ S.held shelf.old }
    ensures not_writing { writes (S.stage shelf.new) ≡ false }
{
    match name {
        Some(name) => load_watch(alloc, shelf, program, name),
        None => Ok(Vec::new(alloc)),
    }
}
