use crate::Held;
use brace_eval::Heard;
use brace_fold::Moved;
use brace_model::Agent;

/// What a part has between two of its works.
#[derive(Drop)]
pub enum Stance {
    /// The agents that it owns, in columns.
    Owns(Moved),
    /// All agents that it holds, by rising id, and what its own said to them.
    Hears(Vec<Agent>, Heard),
    /// The same in columns, where nothing that was said needs more than 64 bits.
    Holds(Held),
    /// What its own agents leave: those that live on, in columns, and the children, by rising id;
    /// and the next free id. Children bear their parents' ids before the census, and ids of their
    /// own behind it.
    Leaves(Moved, Vec<Agent>, u64),
}
