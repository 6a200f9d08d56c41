//! The audit of a file against the published text of a job.
ghost use Rattle.std.specs.Prelude.{◌≡◌, ◌≢◌, ◌≤◌, ℕ, List, [], Some, Ok, Err, OnOk, is_ok, unwrap_or, true, false};
ghost use Rattle.brace_io.specs.Counts.{Rose};
ghost use Rattle.brace_io.specs.Shelves.{held_at, tells, writes, StoppedAt};
ghost use Rattle.brace_model.specs.declared.fault.Fault.{Fault};
ghost use Rattle.brace_model.specs.Lawful.{LawfulJob};
ghost use Rattle.brace_model.specs.Run.{end_of};
ghost use Rattle.brace_audit.specs.declared.fault.AuditFault.TheVariants as found;
ghost use Rattle.brace_audit.specs.Outcome.{outcome, IsRight};
ghost use Rattle.brace_audit.specs.inner.Leaving.{Leaves};
ghost use Rattle.brace_audit.specs.inner.Reading.{Compares};

use crate::AuditFault;
use crate::comparer::Comparer;
use crate::tick::{advance, expect_tick};
use brace_io::{ReadFault, Shelf};
use brace_model::{Job, World};
use std::alloc::Global;

/// Whether a file is the published text of a job's run from its first tick on, and the run reaches
/// the job's last tick.
///
/// The run is done tick by tick by `plain_step`, and the file is read beside it in pieces, up to
/// its first byte that is not the expected one; so neither the file nor the text has a limit.
/// `Absent` where the shelf does not hold the name, `Differs` with the first line that is not the
/// same in both, `Fault` where the file is the whole text of a run that ends in a fault, `Failed`
/// where a call of the shelf failed, `NoMemory` where memory was refused, or where a total or the
/// number of a line is beyond its bits.
pub fn audit<S: Shelf>(
    alloc: Global,
    job: &Job,
    shelf: &mut S,
    name: &str,
) -> Result<(), AuditFault>
    requires lawful { LawfulJob job.now }
    requires idle { writes (S.stage shelf.old) ≡ false }
    ensures right { tells (S.held shelf.old) ≡ true
        → IsRight result (outcome (held_at (S.held shelf.old) name.now) job.now) }
    ensures ends { OnOk result (is_ok (end_of job.now) ≡ true) }
    ensures faulted { (f : Fault) → result ≡ Err (found.Fault f) → end_of job.now ≡ Err f }
    ensures held_alone { S.held shelf.new ≡ S.held shelf.old }
    ensures not_writing { writes (S.stage shelf.new) ≡ false }
    ensures faults_alone { result ≢ Err found.Failed
        → S.faults shelf.new ≡ S.faults shelf.old }
    ensures never_falls { S.faults shelf.old ≤ S.faults shelf.new }
    ensures rose { result ≡ Err found.Failed → Rose (S.faults shelf.old) (S.faults shelf.new) }
    ensures stopped { result ≡ Err found.Failed
        → StoppedAt (S.held shelf.old) (S.stage shelf.new) name.now }
{
    let mut comparer = Comparer::make(alloc)?;
    match shelf.begin_read(name) {
        Ok(()) => follow(alloc, job, shelf, name, &mut comparer),
        Err(ReadFault::Absent) => Err(AuditFault::Absent),
        Err(ReadFault::Failed) => Err(AuditFault::Failed),
    }
}

/// The world that a run came to, which at first is the job's own.
fn current<'a>(job: &'a Job, stepped: &'a Option<World>) -> &'a World
    ensures { result.now ≡ unwrap_or stepped.now job.now.start }
{
    match stepped {
        Some(world) => world,
        None => &job.start,
    }
}

/// Compares a file from its first byte on with the text of a job, tick by tick.
fn follow<S: Shelf>(
    alloc: Global,
    job: &Job,
    shelf: &mut S,
    name: &str,
    comparer: &mut Comparer,
) -> Result<(), AuditFault>
    requires lawful { LawfulJob job.now }
    requires begins { Compares (S.held shelf.old) (S.stage shelf.old) name.now [] comparer.old }
    ensures right { (file : List ℕ) → held_at (S.held shelf.old) name.now ≡ Some file
        → IsRight result (outcome (Some file) job.now) }
    ensures present { result ≢ Err found.Absent }
    ensures ends { OnOk result (is_ok (end_of job.now) ≡ true) }
    ensures faulted { (f : Fault) → result ≡ Err (found.Fault f) → end_of job.now ≡ Err f }
    ensures leaves { Leaves S.Shelf shelf.old shelf.new name.now (result ≡ Err found.Failed) }
{
    match expect_tick(alloc, comparer, shelf, name, job, job.first, &job.start) {
        Ok(()) => {}
        Err(fault) => return Err(fault),
    }
    let mut stepped = None;
    let mut tick = job.first;
    while tick < job.last {
        let world = current(job, &stepped);
        match advance(alloc, job, tick, world, shelf, name, comparer) {
            Ok(next) => stepped = Some(next),
            Err(fault) => return Err(fault),
        }
        tick += 1;
    }
    match comparer.expect_end(shelf, name) {
        Ok(()) => Ok(()),
        Err(fault) => Err(fault),
    }
}
