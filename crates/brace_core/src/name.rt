/// What is exchanged: in which step, from which actor to which.
#[derive(Debug, Clone, Copy, PartialEq, Eq, Drop)]
pub struct Name {
    pub step: u64,
    pub from: u32,
    pub to: u32,
}

/// What an actor does next.
#[derive(Debug, Clone, Copy, PartialEq, Eq, Drop)]
pub enum Turn {
    /// Puts the piece of this name, of which it is `from`.
    Put(Name),
    /// Takes the piece of this name, of which it is `to`.
    Take(Name),
    /// Works for itself.
    Work,
    /// Nothing: no turn is left.
    Done,
}
