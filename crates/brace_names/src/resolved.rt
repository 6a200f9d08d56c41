use brace_num::List;
use brace_syntax::Tree;

/// What a name stands for.
#[derive(Debug, Clone, Copy, Drop)]
pub enum Target {
    /// The class of this number in the script, counted from 0.
    Class(u32),
    /// The state of this number among the states of its class, counted from 0.
    State(u32),
    /// The effect of this number among the effects of its class, counted from 0.
    Effect(u32),
    /// The constant of this number among the constants of its class in text order, counted from 0.
    Local(u32),
    /// The variable of a loop that stands in this number of loops.
    Loop(u32),
}

/// What the name at an offset stands for.
#[derive(Clone, Copy, Drop)]
pub struct Binding {
    pub at: u32,
    pub target: Target,
}

/// A script and what its names stand for, by rising offset: the two classes of a `foreach`, a field
/// or constant in an expression, both names of `q.n` in a query, and the names of an assignment's
/// target or a gift's. A `q.n` outside a query has none.
#[derive(Drop)]
pub struct Resolved {
    pub tree: Tree,
    pub bindings: List<Binding>,
}
