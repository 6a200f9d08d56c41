/// Why a record of an agent file gives no agent: the first that holds, in this order.
#[derive(Debug, Clone, Copy, PartialEq, Eq, Drop)]
pub enum RowKind {
    /// The first field is no class of the program.
    UnknownClass,
    /// There are not two fields more than the class has states.
    WrongLength,
    /// The first field that does not spell what stands there, counted from 0: the id is field 1.
    BadValue(u32),
    /// An earlier record has the id.
    DuplicateId,
    /// Up to this record there are more than 1,048,576 agents or 4,194,304 values.
    TooMany,
}

/// Why an agent file gives no world.
#[derive(Debug, Clone, Copy, PartialEq, Eq, Drop)]
pub enum RowFault {
    /// The first faulty record, counted from 1, and its first fault.
    Bad(u64, RowKind),
    /// The allocator refused memory.
    NoMemory,
}
