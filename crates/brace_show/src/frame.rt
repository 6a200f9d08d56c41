ghost use Rattle.std.specs.Prelude.{◌≡◌, [], ◌++◌, codes};
ghost use Rattle.brace_show.specs.Expressions.{Phrase, at_level, unary, binary};

use brace_syntax::{BinName, UnName};

/// What stands around the operand of an operation, and the level that the operand needs.
#[derive(Clone, Copy)]
pub struct UnaryFrame {
    pub before: &'static [u8],
    pub needed: u8,
    pub after: &'static [u8],
}

/// What stands before, between and behind the operands of an operation, and the levels that they
/// need.
#[derive(Clone, Copy)]
pub struct BinaryFrame {
    pub before: &'static [u8],
    pub left: u8,
    pub between: &'static [u8],
    pub right: u8,
    pub after: &'static [u8],
}

/// How tightly an operation with one operand binds.
pub fn level_of_unary(op: UnName) -> u8
    ensures { (x : Phrase) → result ≡ (unary op x).level }
{
    match op {
        UnName::Neg | UnName::Not => 7,
        UnName::Abs | UnName::Sqrt | UnName::ToFixed | UnName::Trunc => 8,
    }
}

/// How tightly an operation with two operands binds.
pub fn level_of_binary(op: BinName) -> u8
    ensures { (x y : Phrase) → result ≡ (binary op x y).level }
{
    match op {
        BinName::Or => 2,
        BinName::And => 3,
        BinName::Lt | BinName::Le | BinName::Gt | BinName::Ge | BinName::Eq | BinName::Ne => 4,
        BinName::Add | BinName::Sub => 5,
        BinName::Mul | BinName::Div | BinName::Rem => 6,
        BinName::Min | BinName::Max => 8,
    }
}

/// How an operation with one operand is written.
pub fn frame_of_unary(op: UnName) -> UnaryFrame
    ensures { (x : Phrase) → (unary op x).text ≡
        result.before.now ++ at_level result.needed x ++ result.after.now }
{
    let (before, needed, after): (&[u8], u8, &[u8]) = match op {
        UnName::Neg => (b"-", 7, b""),
        UnName::Not => (b"!", 7, b""),
        UnName::Abs => (b"abs(", 1, b")"),
        UnName::Sqrt => (b"sqrt(", 1, b")"),
        UnName::ToFixed => (b"fixed(", 1, b")"),
        UnName::Trunc => (b"trunc(", 1, b")"),
    };
    UnaryFrame {
        before,
        needed,
        after,
    }
}

fn infix(left: u8, between: &'static [u8], right: u8) -> BinaryFrame
    ensures { (result.before.now ≡ []) × (result.left ≡ left)
        × (result.between.now ≡ between.now) × (result.right ≡ right) × (result.after.now ≡ []) }
{
    BinaryFrame {
        before: b"",
        left,
        between,
        right,
        after: b"",
    }
}

fn call(before: &'static [u8]) -> BinaryFrame
    ensures { (result.before.now ≡ before.now) × (result.left ≡ 1)
        × (result.between.now ≡ codes ", ") × (result.right ≡ 1) × (result.after.now ≡ codes ")") }
{
    BinaryFrame {
        before,
        left: 1,
        between: b", ",
        right: 1,
        after: b")",
    }
}

/// How an operation with two operands is written.
pub fn frame_of_binary(op: BinName) -> BinaryFrame
    ensures { (x y : Phrase) → (binary op x y).text ≡
        result.before.now ++ at_level result.left x ++ result.between.now ++
        at_level result.right y ++ result.after.now }
{
    match op {
        BinName::Or => infix(2, b" || ", 3),
        BinName::And => infix(3, b" && ", 4),
        BinName::Lt => infix(5, b" < ", 5),
        BinName::Le => infix(5, b" <= ", 5),
        BinName::Gt => infix(5, b" > ", 5),
        BinName::Ge => infix(5, b" >= ", 5),
        BinName::Eq => infix(5, b" == ", 5),
        BinName::Ne => infix(5, b" != ", 5),
        BinName::Add => infix(5, b" + ", 6),
        BinName::Sub => infix(5, b" - ", 6),
        BinName::Mul => infix(6, b" * ", 7),
        BinName::Div => infix(6, b" / ", 7),
        BinName::Rem => infix(6, b" % ", 7),
        BinName::Min => call(b"min("),
        BinName::Max => call(b"max("),
    }
}
