use brace_io::WholeFault;
use brace_num::NoMemory;
use std::alloc::{AllocError, AllocFailed};
use std::str::Utf8Error;

/// Why the commands can't be given.
#[derive(Drop)]
pub enum Unfit {
    /// Their file can't be read, or is no text.
    Unread,
    NoMemory,
}

impl From<WholeFault> for Unfit {
    fn from(_: WholeFault) -> Unfit {
        Unfit::Unread
    }
}

impl From<Utf8Error> for Unfit {
    fn from(_: Utf8Error) -> Unfit {
        Unfit::Unread
    }
}

impl From<NoMemory> for Unfit {
    fn from(_: NoMemory) -> Unfit {
        Unfit::NoMemory
    }
}

impl From<AllocError> for Unfit {
    fn from(_: AllocError) -> Unfit {
        Unfit::NoMemory
    }
}

impl<T: Drop> From<AllocFailed<T>> for Unfit {
    fn from(_: AllocFailed<T>) -> Unfit {
        Unfit::NoMemory
    }
}
