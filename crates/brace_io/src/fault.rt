ghost use Rattle.std.specs.Prelude.{◌≡◌};

use std::alloc::AllocError;

/// Why a reading did not begin.
#[derive(Debug, Clone, Copy, PartialEq, Eq, Drop)]
pub enum ReadFault {
    /// The shelf does not hold the name.
    Absent,
    /// The call failed; the shelf's count of failures rose.
    Failed,
}

/// The call failed; the count of failures rose.
#[derive(Debug, Clone, Copy, PartialEq, Eq, Drop)]
pub struct Failed;

/// Why a file was not read whole.
#[derive(Debug, Clone, Copy, PartialEq, Eq, Drop)]
pub enum WholeFault {
    /// The shelf does not hold the name.
    Absent,
    /// A call failed; the shelf's count of failures rose.
    Failed,
    /// More bytes than the limit were read.
    TooLong,
    /// The allocator refused memory.
    NoMemory,
}

impl From<Failed> for WholeFault {
    ghost use Rattle.brace_io.specs.declared.fault.WholeFault.TheVariants as kind;

    ghost from_gives = { λ _ fault. fault ≡ kind.Failed };

    fn from(_: Failed) -> WholeFault {
        WholeFault::Failed
    }
}

impl From<AllocError> for WholeFault {
    ghost use Rattle.brace_io.specs.declared.fault.WholeFault.TheVariants as kind;

    ghost from_gives = { λ _ fault. fault ≡ kind.NoMemory };

    fn from(_: AllocError) -> WholeFault {
        WholeFault::NoMemory
    }
}
