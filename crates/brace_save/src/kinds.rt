use brace_model::World;

/// What a checkpoint tells: the world of a tick, and the seed of its run.
#[derive(Debug, Drop)]
pub struct Point {
    pub tick: u64,
    pub seed: u64,
    pub world: World,
}

/// Why bytes are no checkpoint of a program's classes.
#[derive(Debug, Clone, Copy, PartialEq, Eq, Drop)]
pub enum PointFault {
    /// No line is bad, and the end line is missing.
    Incomplete,
    /// The first bad line, counted from 1; it is none of the two below.
    BadLine(u64),
    /// The first bad line stands where a class has its line.
    OtherClasses,
    /// The first line is bad.
    BadVersion,
    /// The allocator refused memory.
    NoMemory,
}
