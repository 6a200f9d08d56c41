use brace_code::Code;
use brace_model::Who;
use brace_num::List;

/// A coordinate of an agent.
#[derive(Clone, Copy, PartialEq, Eq, Drop)]
pub enum Axis {
    X,
    Y,
}

/// How a coordinate has to stand to a limit.
#[derive(Clone, Copy, PartialEq, Eq, Drop)]
pub enum Side {
    Below,
    AtMost,
    Above,
    AtLeast,
    At,
}

/// A number that is known when a loop begins, in millionths.
#[derive(Clone, Copy, PartialEq, Eq, Drop)]
pub enum Limit {
    Number(i64),
    /// A state of `this`, by its place in the class's states.
    State(u32),
    /// A constant declared outside the loop.
    Constant(u32),
}

/// A condition on where a loop's agent stands.
#[derive(Clone, Copy, PartialEq, Eq, Drop)]
pub struct Bound {
    pub axis: Axis,
    pub side: Side,
    pub limit: Limit,
}

/// A statement of a query, compiled.
#[derive(Drop)]
pub enum Action {
    Const(u32, Code),
    If(Code, List<Action>, List<Action>),
    /// The number of the class looped over, what narrows the loop, the block, and the byte offset
    /// of the statement.
    Foreach(u32, List<Bound>, List<Action>, u32),
    /// The target agent, the effect by its place in the target's class, and the value.
    Assign(Who, u32, Code),
}
