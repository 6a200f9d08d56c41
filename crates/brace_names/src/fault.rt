use brace_num::NoMemory;

/// What there is too much of.
#[derive(Debug, Clone, Copy, PartialEq, Eq, Drop)]
pub enum Which {
    /// Classes, of which a script has at most 16.
    Classes,
    /// States and effects, of which a class has at most 64.
    Fields,
    /// Sites, of which a script has at most 4096.
    Sites,
    /// Assignments, the gifts of a `spawn` among them, of which a script has at most 4096.
    Assignments,
}

/// What is wrong with the names of a script, and the offset at which it is found.
#[derive(Debug, Clone, Copy, Drop)]
pub enum NameFault {
    /// An earlier class has the name of the class.
    DuplicateClass(u32),
    /// The name stands for something else there already, or the member stands in its class already.
    DuplicateName(u32),
    /// A loop is over a class that the script lacks, or names two classes.
    UnknownClass(u32),
    /// The name stands for nothing there.
    UnknownName(u32),
    /// The type is not `int`, `fixed` or `bool`.
    UnknownType(u32),
    /// The class of this name has no `public state fixed x` or no `public state fixed y`.
    NoPosition(u32),
    /// The first that goes past a limit.
    TooMany(Which, u32),
    /// The allocator refused memory.
    NoMemory,
}

impl From<NoMemory> for NameFault {
    ghost use Rattle.std.specs.Prelude.{◌≡◌};
    ghost use Rattle.brace_names.specs.declared.fault.NameFault.TheVariants as fault;

    ghost from_gives = { λ _ f. f ≡ fault.NoMemory };

    fn from(_: NoMemory) -> NameFault {
        NameFault::NoMemory
    }
}
