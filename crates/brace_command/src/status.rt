ghost use Rattle.std.specs.Prelude.{◌≡◌};
ghost use Rattle.brace_command.specs.Status.{code_of, status_of};

/// How a command ends.
#[derive(Clone, Copy, PartialEq, Eq, Drop)]
pub enum Status {
    /// All was written.
    Done,
    /// The words are no line.
    Usage,
    /// The script is refused.
    Script,
    /// The agent file is refused.
    Agents,
    /// The cut plan is refused.
    Plan,
    /// A file is no checkpoint of the script's classes.
    Checkpoint,
    /// The run ended in a fault before its last tick.
    Fault,
    /// A read failed.
    ReadFault,
    /// A write to standard output failed.
    WriteFault,
    /// A file was not saved.
    SaveFault,
    /// The allocator refused memory.
    NoMemory,
    /// A named file is not held.
    Absent,
    /// The published file differs from what a run publishes.
    Differs,
    /// The watch file is refused.
    Watches,
}

impl Status {
    /// The number with which the program ends.
    pub fn code(self) -> u8
        ensures code { result ≡ code_of self }
        ensures back { status_of result ≡ self }
    {
        match self {
            Status::Done => 0,
            Status::Usage => 2,
            Status::Script => 3,
            Status::Agents => 4,
            Status::Plan => 5,
            Status::Checkpoint => 6,
            Status::Fault => 7,
            Status::ReadFault => 8,
            Status::WriteFault => 9,
            Status::SaveFault => 10,
            Status::NoMemory => 11,
            Status::Absent => 12,
            Status::Differs => 13,
            Status::Watches => 14,
        }
    }
}
