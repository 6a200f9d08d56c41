/// Why a line of a cut plan is refused; of several faults of a line the first of these counts.
#[derive(Debug, Clone, Copy, PartialEq, Eq, Drop)]
pub enum PlanKind {
    /// It is not of the form `at TICK x C.. y D..`.
    BadLine,
    /// Its cuts do not rise, or its tick is not above that of the line before, or it is the first
    /// line and its tick is not 0.
    NotRising,
    /// Its tick is no multiple of the epoch's length.
    OffEpoch,
    /// It has more or fewer cuts than the first line, along x or along y.
    OtherCount,
    /// It makes more than 64 parts.
    TooMany,
}

/// Why bytes are no cut plan.
#[derive(Debug, Clone, Copy, PartialEq, Eq, Drop)]
pub enum PlanFault {
    /// The first faulty line, counted from 1, and its first fault.
    Bad(u64, PlanKind),
    /// The allocator refused memory.
    NoMemory,
}
