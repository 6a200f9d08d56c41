use brace_num::NoMemory;

/// Why words give no line.
#[derive(Debug, Clone, Copy, PartialEq, Eq, Drop)]
pub enum LineFault {
    /// The words are no command line.
    Usage,
    /// The allocator refused memory.
    NoMemory,
}

impl From<NoMemory> for LineFault {
    ghost use Rattle.std.specs.Prelude.{◌≡◌};
    ghost use Rattle.brace_words.specs.declared.fault.LineFault.TheVariants as fault;

    ghost from_gives = { λ _ f. f ≡ fault.NoMemory };

    fn from(_: NoMemory) -> LineFault {
        LineFault::NoMemory
    }
}
