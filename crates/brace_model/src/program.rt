use brace_num::{Boxed, List, Text};

/// The type of a state, an effect or a constant.
#[derive(Debug, Clone, Copy, PartialEq, Eq, Drop)]
pub enum Ty {
    Int,
    /// A number counted in millionths.
    Fixed,
    Bool,
}

/// A value. A fixed one counts millionths.
#[derive(Debug, Clone, Copy, PartialEq, Eq, Drop)]
pub enum Value {
    Int(i64),
    Fixed(i64),
    Flag(bool),
}

/// How the values said to an effect are joined.
#[derive(Debug, Clone, Copy, PartialEq, Eq, Drop)]
pub enum Comb {
    Sum,
    Min,
    Max,
    Count,
    Or,
}

/// An operation on one operand.
#[derive(Debug, Clone, Copy, PartialEq, Eq, Drop)]
pub enum UnOp {
    Neg,
    Not,
    Abs,
    Sqrt,
    ToFixed,
    Trunc,
}

/// An operation on two operands.
#[derive(Debug, Clone, Copy, PartialEq, Eq, Drop)]
pub enum BinOp {
    Add,
    Sub,
    Mul,
    Div,
    Rem,
    Lt,
    Le,
    Gt,
    Ge,
    Eq,
    Ne,
    And,
    Or,
    Min,
    Max,
}

/// An agent that an expression or an assignment names: `this`, or the variable of a loop that
/// stands in no other loop, or of one that stands in one.
#[derive(Debug, Clone, Copy, PartialEq, Eq, Drop)]
pub enum Who {
    This,
    Outer,
    Inner,
}

/// An expression with names replaced by numbers. The `Option<u32>` of an operation is its site
/// number, where it has one.
#[derive(Debug, Drop)]
pub enum Expr {
    Lit(Value),
    /// The state of an agent, by its place in the class's states.
    Field(Who, u32),
    /// The total of an effect, by its place in the class's effects, with the effect's type.
    Total(u32, Ty, Option<u32>),
    /// A constant of the class, numbered from 0 in text order.
    Local(u32),
    Unary(UnOp, Option<u32>, Boxed<Expr>),
    Binary(BinOp, Option<u32>, Boxed<Expr>, Boxed<Expr>),
    /// Condition, then the branch for true, then that for false.
    Choice(Boxed<Expr>, Boxed<Expr>, Boxed<Expr>),
    /// A random draw at a site.
    Rand(u32),
}

/// A statement of a query.
#[derive(Debug, Drop)]
pub enum Stmt {
    Const(u32, Expr),
    If(Expr, List<Stmt>, List<Stmt>),
    /// The number of the class looped over, the block, and the byte offset of the statement.
    Foreach(u32, List<Stmt>, u32),
    /// The target agent, the effect by its place in the target's class, the value, and the byte
    /// offset of the statement.
    Assign(Who, u32, Expr, u32),
}

/// A state of a class: what an agent carries from tick to tick.
#[derive(Debug, Drop)]
pub struct State {
    pub name: Text,
    pub ty: Ty,
    /// True for `public`.
    pub shared: bool,
    /// Without a rule the state keeps its value.
    pub rule: Option<Expr>,
}

/// An effect of a class: what the agents of a tick say to an agent.
#[derive(Debug, Drop)]
pub struct Effect {
    pub name: Text,
    pub ty: Ty,
    /// True for `public`.
    pub shared: bool,
    pub comb: Comb,
}

/// A value that a child begins with, in place of its parent's.
#[derive(Debug, Drop)]
pub struct Gift {
    /// The state, by its place in the class's states.
    pub state: u32,
    pub value: Expr,
}

/// When an agent has a child, and what the child gets. The other states of a child are its
/// parent's.
#[derive(Debug, Drop)]
pub struct Spawn {
    pub when: Expr,
    pub gifts: List<Gift>,
    /// The number of the site at which a birth that goes too far faults.
    pub site: u32,
}

/// A class of agents.
#[derive(Debug, Drop)]
pub struct Class {
    pub name: Text,
    /// The visible range, in millionths.
    pub visible: i64,
    /// The reach, in millionths.
    pub reach: i64,
    /// The place of the state `x`.
    pub x: u32,
    /// The place of the state `y`.
    pub y: u32,
    pub states: List<State>,
    pub effects: List<Effect>,
    /// The statements of `run`.
    pub query: List<Stmt>,
    /// The condition under which an agent is not in the next world.
    pub die: Option<Expr>,
    pub spawn: Option<Spawn>,
}

/// A script, checked.
#[derive(Debug, Drop)]
pub struct Program {
    pub classes: List<Class>,
    /// The byte offset of each site.
    pub sites: List<u32>,
}
