/// Why a text spells no tokens. Each number is the offset in bytes of the place where the fault
/// stands.
#[derive(Debug, Clone, Copy, PartialEq, Eq, Drop)]
pub enum TokFault {
    /// A byte that begins no blank, comment or token.
    BadByte(u32),
    /// A `/*` that no `*/` follows.
    OpenComment(u32),
    /// A literal above 2^63-1, in whole units or in millionths, or with more than six digits after
    /// the point.
    WideLiteral(u32),
    /// A word of more than 64 bytes.
    LongWord(u32),
    /// The allocator refused memory.
    NoMemory,
}
