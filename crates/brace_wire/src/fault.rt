ghost use Rattle.std.specs.Prelude.{◌≡◌};

use brace_num::NoMemory;
use std::alloc::{AllocError, AllocFailed};

/// Why bytes of a stream were not taken.
#[derive(Debug, Clone, Copy, PartialEq, Eq, Drop)]
pub enum WireFault {
    /// A whole frame, by its length, is none; its place in the stream, in bytes from 0.
    BadFrame(u64),
    /// Memory was refused, or a place in the stream was beyond its bits.
    NoMemory,
}

impl From<NoMemory> for WireFault {
    ghost use Rattle.brace_wire.specs.declared.fault.WireFault.TheVariants as fault;

    ghost from_gives = { λ _ given. given ≡ fault.NoMemory };

    fn from(_: NoMemory) -> WireFault {
        WireFault::NoMemory
    }
}

impl From<AllocError> for WireFault {
    ghost use Rattle.brace_wire.specs.declared.fault.WireFault.TheVariants as fault;

    ghost from_gives = { λ _ given. given ≡ fault.NoMemory };

    fn from(_: AllocError) -> WireFault {
        WireFault::NoMemory
    }
}

/// Why nothing was read from the front of bytes.
#[derive(Debug, Clone, Copy, PartialEq, Eq, Drop)]
pub(crate) enum Unread {
    /// They begin with nothing of the kind.
    Bad,
    /// Memory was refused.
    NoMemory,
}

impl From<NoMemory> for Unread {
    ghost use Rattle.brace_wire.specs.declared.fault.Unread.TheVariants as unread;

    ghost from_gives = { λ _ given. given ≡ unread.NoMemory };

    fn from(_: NoMemory) -> Unread {
        Unread::NoMemory
    }
}

impl From<AllocError> for Unread {
    ghost use Rattle.brace_wire.specs.declared.fault.Unread.TheVariants as unread;

    ghost from_gives = { λ _ given. given ≡ unread.NoMemory };

    fn from(_: AllocError) -> Unread {
        Unread::NoMemory
    }
}

impl<T: Drop> From<AllocFailed<T>> for Unread {
    ghost use Rattle.brace_wire.specs.declared.fault.Unread.TheVariants as unread;

    ghost from_gives = { λ _ given. given ≡ unread.NoMemory };

    fn from(_: AllocFailed<T>) -> Unread {
        Unread::NoMemory
    }
}
