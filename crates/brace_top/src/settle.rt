//! How a run is answered, by what its crew came to.
ghost use Rattle.std.specs.Prelude.{option_map};
ghost use Rattle.brace_command.specs.Settled.{saves_in};
ghost use Rattle.brace_top.specs.inner.Settled.{IsSettled, IsRefusedBy, IsUnsavedAs};

use brace_command::{Answer, Status, Stopped, Task, done, faulted, refuse, save_fault_message};
use brace_crew::CrewFault;
use brace_desk::PubFault;
use brace_pieces::Counts;
use std::alloc::Global;

/// Why a run went no further whose file of a tick was not saved under a name.
fn unsaved(alloc: Global, name: Option<&str>, tick: u64) -> Stopped
    ensures { IsUnsavedAs (option_map (λ name. name.now) name.entry) tick result }
{
    match name {
        Some(name) => refuse(Status::SaveFault, save_fault_message(alloc, name, tick)),
        None => Stopped::NoMemory,
    }
}

/// Why a run went no further whose publisher refused.
fn refused(alloc: Global, task: &Task, refusal: PubFault) -> Stopped
    ensures { IsRefusedBy (saves_in task.now) refusal result }
{
    match refusal {
        PubFault::Write => Stopped::WriteFault,
        PubFault::Save(tick) => unsaved(alloc, task.save, tick),
        PubFault::Watch(tick) => unsaved(alloc, task.watch, tick),
        PubFault::NoMemory => Stopped::NoMemory,
    }
}

/// The answer of a run, by what its crew came to.
pub fn settle(
    alloc: Global,
    task: &Task,
    came: Result<Counts, CrewFault>,
) -> Result<Answer, Stopped>
    ensures { IsSettled task.now.stats (saves_in task.now) came result }
{
    match came {
        Ok(counts) => done(alloc, task.stats, &counts),
        Err(CrewFault::Fault(fault)) => faulted(alloc, &fault),
        Err(CrewFault::Publish(refusal)) => Err(refused(alloc, task, refusal)),
        Err(CrewFault::NoMemory) => Err(Stopped::NoMemory),
    }
}
