ghost use Rattle.std.specs.Prelude.{◌≡◌};

use brace_model::Fault;
use brace_num::NoMemory;
use std::alloc::AllocFailed;

/// Why a tick has no next world.
#[derive(Debug, Drop)]
pub enum StepFault {
    /// The least fault of the tick.
    Fault(Fault),
    NoMemory,
}

impl<T: Drop> From<AllocFailed<T>> for StepFault {
    ghost use Rattle.brace_eval.specs.declared.fault.StepFault.TheVariants as step_fault;

    ghost from_gives = { λ _ fault. fault ≡ step_fault.NoMemory };

    fn from(_: AllocFailed<T>) -> StepFault {
        StepFault::NoMemory
    }
}

impl From<NoMemory> for StepFault {
    ghost use Rattle.brace_eval.specs.declared.fault.StepFault.TheVariants as step_fault;

    ghost from_gives = { λ _ fault. fault ≡ step_fault.NoMemory };

    fn from(_: NoMemory) -> StepFault {
        StepFault::NoMemory
    }
}
