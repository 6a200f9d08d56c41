use brace_comb::Total;
use brace_model::{BinOp, Comb, Value};

/// A figure that is watched in a run.
#[derive(Debug, Clone, Copy, PartialEq, Eq, Drop)]
pub struct Watch {
    /// Whether agents are counted, or what their values are joined to.
    pub kind: Comb,
    /// The class, by its number.
    pub class: u32,
    /// The state, by its place in the class's states; None where agents are counted.
    pub field: Option<u32>,
    /// What an agent has to meet, if anything: a state, by its place, stands so to a value.
    pub test: Option<(u32, BinOp, Value)>,
}

/// The figures of one watch at a tick.
#[derive(Debug, Drop)]
pub struct Figures {
    /// That of all agents.
    pub whole: Total,
    /// Those of the agents of each box, by its number.
    pub boxes: Vec<Total>,
}

/// Why a line of a watch file is refused; of several faults of a line the first of these counts.
#[derive(Debug, Clone, Copy, PartialEq, Eq, Drop)]
pub enum WatchKind {
    /// It is not of the form `count CLASS`, or `sum`, `min` or `max` with `CLASS FIELD`, with or
    /// without ` where FIELD OP VALUE`.
    BadLine,
    /// The program has no class of its name.
    UnknownClass,
    /// The class has no state of a name.
    UnknownField,
    /// Flags are joined to a sum, a least or a greatest value, or ordered; or what a state is
    /// compared with is no value of its type.
    WrongType,
    /// It is the 65th line.
    TooMany,
}

/// Why bytes are no watch file.
#[derive(Debug, Clone, Copy, PartialEq, Eq, Drop)]
pub enum WatchFault {
    /// The first faulty line, counted from 1, and its first fault.
    Bad(u64, WatchKind),
    /// The allocator refused memory.
    NoMemory,
}
