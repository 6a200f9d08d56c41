//! One tick of a run beside the file that is compared with its text.
ghost use Rattle.std.specs.Prelude.{◌≡◌, ◌≢◌, ◌<◌, ◌+◌, ℕ, Ok, Err, IfOk, IfErr, OnOk, true};
ghost use Rattle.brace_model.specs.declared.fault.Fault.{Fault};
ghost use Rattle.brace_model.specs.Lawful.{LawfulJob};
ghost use Rattle.brace_model.specs.Published.{is_published, tick_text};
ghost use Rattle.brace_audit.specs.declared.fault.AuditFault.TheVariants as found;
ghost use Rattle.brace_audit.specs.inner.Following.{Follows, Told};
ghost use Rattle.brace_audit.specs.inner.Leaving.{Leaves};
ghost use Rattle.brace_audit.specs.inner.Reading.{Comparing, GoesOn, Departs};

use crate::AuditFault;
use crate::comparer::Comparer;
use brace_eval::{StepFault, plain_step};
use brace_io::Shelf;
use brace_model::{Job, World};
use brace_num::NoMemory;
use brace_rows::print_tick;
use std::alloc::Global;

/// Whether a tick is published.
fn is_published(job: &Job, tick: u64) -> bool
    ensures { result ≡ is_published job.now true tick }
{
    tick.is_multiple_of(job.every) || tick == job.last
}

/// The rows of a tick, where it is published.
fn tick_rows(alloc: Global, job: &Job, tick: u64, world: &World) -> Result<Vec<u8>, NoMemory>
    ensures { IfOk result (λ text. text.items ≡ tick_text job.now true tick (Ok world.now)) }
{
    let mut text = Vec::new(alloc);
    if is_published(job, tick) {
        print_tick(&mut text, &job.program, tick, world)?;
    }
    Ok(text)
}

/// Compares what a file goes on by with the rows of a tick, where it is published.
pub(crate) fn expect_tick<S: Shelf>(
    alloc: Global,
    comparer: &mut Comparer,
    shelf: &mut S,
    name: &str,
    job: &Job,
    tick: u64,
    world: &World,
) -> Result<(), AuditFault>
    requires { Comparing (S.held shelf.old) (S.stage shelf.old) name.now comparer.old }
    ensures goes_on { OnOk result (GoesOn (S.held shelf.old) (S.stage shelf.old) comparer.old
        (S.held shelf.new) (S.stage shelf.new) comparer.new name.now
        (tick_text job.now true tick (Ok world.now))) }
    ensures departs { (line : ℕ) → result ≡ Err (found.Differs line)
        → Departs (S.held shelf.old) (S.stage shelf.old) comparer.old name.now
        (tick_text job.now true tick (Ok world.now)) line }
    ensures present { result ≢ Err found.Absent }
    ensures faultless { (f : Fault) → result ≢ Err (found.Fault f) }
    ensures leaves { Leaves S.Shelf shelf.old shelf.new name.now (result ≡ Err found.Failed) }
{
    let text = tick_rows(alloc, job, tick, world)?;
    comparer.expect(shelf, name, &text)
}

/// Goes on by one tick: the next world, where the run has one and the file has its rows.
pub(crate) fn advance<S: Shelf>(
    alloc: Global,
    job: &Job,
    tick: u64,
    world: &World,
    shelf: &mut S,
    name: &str,
    comparer: &mut Comparer,
) -> Result<World, AuditFault>
    requires lawful { LawfulJob job.now }
    requires before { tick < job.now.last }
    requires follows { Follows (S.held shelf.old) (S.stage shelf.old) name.now
        job.now tick world.now comparer.old }
    ensures follows { IfOk result (λ next. Follows (S.held shelf.new) (S.stage shelf.new) name.now
        job.now (tick + 1) next comparer.new) }
    ensures told { IfErr result (λ e. Told (S.held shelf.old) name.now job.now e) }
    ensures leaves { Leaves S.Shelf shelf.old shelf.new name.now (result ≡ Err found.Failed) }
{
    match plain_step(alloc, job, tick, world) {
        Ok(next) => match expect_tick(alloc, comparer, shelf, name, job, tick + 1, &next) {
            Ok(()) => Ok(next),
            Err(fault) => Err(fault),
        },
        Err(StepFault::Fault(fault)) => match comparer.expect_end(shelf, name) {
            Ok(()) => Err(AuditFault::Fault(fault)),
            Err(other) => Err(other),
        },
        Err(StepFault::NoMemory) => Err(AuditFault::NoMemory),
    }
}
