use crate::Total;

/// A total for an effect of an agent.
#[derive(Debug, Clone, Copy, PartialEq, Eq, Drop)]
pub struct Entry {
    /// The id of the agent.
    pub target: u64,
    /// The effect, by its place in the class's effects.
    pub field: u32,
    pub total: Total,
}
