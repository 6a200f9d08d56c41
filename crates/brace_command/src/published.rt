//! What a published file comes to beside a run.
ghost use Rattle.std.specs.Prelude.{◌≡◌, MatchResult, false};
ghost use Rattle.brace_io.specs.Shelves.{writes};
ghost use Rattle.brace_model.specs.Lawful.{LawfulJob};
ghost use Rattle.brace_command.specs.Answer.{shelf_call};
ghost use Rattle.brace_command.specs.Outcome.{compared};
ghost use Rattle.brace_command.specs.Settled.{IsLoaded, IsUnloaded};

use crate::answer::{Stopped, refuse, refuse_file};
use crate::messages::row_message;
use crate::status::Status;
use brace_audit::{AuditFault, audit};
use brace_io::Shelf;
use brace_model::{Fault, Job};
use std::alloc::Global;

/// What the published file of a name comes to beside the run of a job from its first tick on: the
/// run's first fault, if it has one, where the file is what the run publishes.
pub fn load_published<S: Shelf>(
    alloc: Global,
    shelf: &mut S,
    job: &Job,
    name: &str,
) -> Result<Option<Fault>, Stopped>
    requires stage { writes (S.stage shelf.old) ≡ false }
    requires lawful { LawfulJob job.now }
    ensures loads { MatchResult result
        (IsLoaded (λ files found. compared name.now job.now (files name.now) ≡ found)
        (shelf_call S.Shelf shelf.old shelf.new))
        (IsUnloaded (λ files found. compared name.now job.now (files name.now) ≡ found) name.now
        (shelf_call S.Shelf shelf.old shelf.new)) }
    ensures held { S.held shelf.new ≡ S.held shelf.old }
    ensures not_writing { writes (S.stage shelf.new) ≡ false }
{
    match audit(alloc, job, shelf, name) {
        Ok(()) => Ok(None),
        Err(AuditFault::Fault(fault)) => Ok(Some(fault)),
        Err(AuditFault::Differs(row)) => {
            Err(refuse(Status::Differs, row_message(alloc, name, row)))
        }
        Err(AuditFault::Absent) => Err(refuse_file(alloc, name, Status::Absent, b": absent")),
        Err(AuditFault::Failed) => Err(refuse_file(
            alloc,
            name,
            Status::ReadFault,
            b": read fault",
        )),
        Err(AuditFault::NoMemory) => Err(Stopped::NoMemory),
    }
}
