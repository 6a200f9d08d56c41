use brace_num::NoMemory;

/// Why tokens have no tree.
#[derive(Debug, Clone, Copy, PartialEq, Eq, Drop)]
pub enum SynFault {
    /// The tokens are no script. The offset is that of the first token that no script has there, or
    /// the length of the source where some script goes on behind it.
    NoReading(u32),
    /// At the token at this offset more than 64 brackets are open, or more than 256 operators stand
    /// in one statement.
    TooDeep(u32),
    /// The allocator refused memory.
    NoMemory,
}

/// Why a row of the grammar can't be read.
#[derive(Debug, Clone, Copy, PartialEq, Eq, Drop)]
pub enum Stop {
    /// The token at this offset does not fit, or another token is missing at the end of the text.
    NoReading(u32),
    /// The allocator refused memory.
    NoMemory,
}

impl From<NoMemory> for Stop {
    ghost use Rattle.std.specs.Prelude.{◌≡◌};
    ghost use Rattle.brace_syntax.specs.declared.fault.Stop.TheVariants as stop;

    ghost from_gives = { λ _ e. e ≡ stop.NoMemory };

    fn from(_: NoMemory) -> Stop {
        Stop::NoMemory
    }
}
