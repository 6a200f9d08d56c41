/// Why an exact operation has no result, or a world has no next one.
#[derive(Debug, Clone, Copy, PartialEq, Eq, Drop)]
pub enum Kind {
    /// The exact result does not fit 64 signed bits.
    Overflow,
    /// The divisor is 0.
    DivZero,
    /// The root of a negative number was asked for.
    NegRoot,
    /// A birth takes a world past its limits. No exact operation answers it.
    TooMany,
}

/// A box of the plane in millionths. It includes its four bounds.
#[derive(Debug, Clone, Copy, PartialEq, Eq, Drop)]
pub struct Area {
    pub x0: i64,
    pub x1: i64,
    pub y0: i64,
    pub y1: i64,
}
