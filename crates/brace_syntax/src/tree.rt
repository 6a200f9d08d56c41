use brace_num::{Boxed, List, Text};

/// A name, and the offset of its first byte.
#[derive(Debug, Drop)]
pub struct Ident {
    pub text: Text,
    pub at: u32,
}

/// What a number's digits say: a whole number, or a fixed one in millionths.
#[derive(Debug, Clone, Copy, PartialEq, Eq, Drop)]
pub enum Digits {
    Int(i64),
    Fixed(i64),
}

/// A literal number, and the offset of its first byte.
#[derive(Debug, Clone, Copy, PartialEq, Eq, Drop)]
pub struct Number {
    pub digits: Digits,
    pub at: u32,
}

/// A type as it is written.
#[derive(Debug, Drop)]
pub enum TyName {
    Int,
    Fixed,
    Bool,
    /// A name, which is to be a class.
    Other(Ident),
}

/// How an effect joins what is assigned to it.
#[derive(Debug, Clone, Copy, PartialEq, Eq, Drop)]
pub enum CombName {
    Sum,
    Min,
    Max,
    Count,
    Or,
}

/// An operation or call with one operand.
#[derive(Debug, Clone, Copy, PartialEq, Eq, Drop)]
pub enum UnName {
    Neg,
    Not,
    Abs,
    Sqrt,
    ToFixed,
    Trunc,
}

/// An operation or call with two operands.
#[derive(Debug, Clone, Copy, PartialEq, Eq, Drop)]
pub enum BinName {
    Add,
    Sub,
    Mul,
    Div,
    Rem,
    Lt,
    Le,
    Gt,
    Ge,
    Eq,
    Ne,
    And,
    Or,
    Min,
    Max,
}

/// An expression. A `u32` is the offset of the operator, of a call's word, or of the first token of
/// a name or literal.
#[derive(Debug, Drop)]
pub enum ExprTree {
    Lit(Number),
    True(u32),
    False(u32),
    Name(Ident),
    /// `this.n`: the name `n`, and the offset of `this`.
    OfThis(Ident, u32),
    /// `q.n`: the names `q` and `n`.
    OfLoop(Ident, Ident),
    Unary(UnName, Boxed<ExprTree>, u32),
    Binary(BinName, Boxed<ExprTree>, Boxed<ExprTree>, u32),
    /// `c ? a : b`, and the offset of the `?`.
    Choice(Boxed<ExprTree>, Boxed<ExprTree>, Boxed<ExprTree>, u32),
    Rand(u32),
}

/// A statement. A `u32` is the offset of its first token; an assignment without one has it in its
/// first name.
#[derive(Debug, Drop)]
pub enum StmtTree {
    Const(TyName, Ident, Boxed<ExprTree>, u32),
    /// The condition, the block, and the block of `else` where one is written.
    If(Boxed<ExprTree>, List<StmtTree>, Option<List<StmtTree>>, u32),
    /// The class, the variable, the second class and the block.
    Foreach(Ident, Ident, Ident, List<StmtTree>, u32),
    Assign(Ident, Boxed<ExprTree>),
    /// `this.n <- e`.
    AssignThis(Ident, Boxed<ExprTree>, u32),
    /// `q.n <- e`: the names `q` and `n`.
    AssignLoop(Ident, Ident, Boxed<ExprTree>),
}

/// What a child gets: a state's name and the value that it begins with.
#[derive(Debug, Drop)]
pub struct GiftTree {
    pub state: Ident,
    pub value: Boxed<ExprTree>,
}

/// A member of a class. A `u32` is the offset of its first token; a `bool` is true for `public`.
#[derive(Debug, Drop)]
pub enum MemberTree {
    Visible(Number, u32),
    Reach(Number, u32),
    State(bool, TyName, Ident, Option<Boxed<ExprTree>>, u32),
    Effect(bool, TyName, Ident, CombName, u32),
    Run(List<StmtTree>, u32),
    /// `die when e;`.
    Die(Boxed<ExprTree>, u32),
    /// `spawn when e { .. }`: the condition and the gifts as they are written.
    Spawn(Boxed<ExprTree>, List<GiftTree>, u32),
}

/// A class: its name, its members as they are written, and the offset of its first token.
#[derive(Debug, Drop)]
pub struct ClassTree {
    pub name: Ident,
    pub members: List<MemberTree>,
    pub at: u32,
}

/// A script: its classes as they are written.
#[derive(Debug, Drop)]
pub struct Tree {
    pub classes: List<ClassTree>,
}
