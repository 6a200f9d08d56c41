use brace_model::{Fault, Value};
use std::alloc::Global;

/// A value said to an effect of an agent, which is told by its place in a list of agents.
#[derive(Clone, Copy, Drop)]
pub struct Said {
    pub place: u32,
    pub field: u32,
    pub value: Value,
}

/// What the query of an agent says, in the order in which it is said, and its least fault.
#[derive(Drop)]
pub struct Answer {
    pub said: Vec<Said>,
    pub fault: Option<Fault>,
}

impl Answer {
    /// Nothing is said, and nothing faults.
    pub fn none(alloc: Global) -> Answer {
        Answer {
            said: Vec::new(alloc),
            fault: None,
        }
    }
}
