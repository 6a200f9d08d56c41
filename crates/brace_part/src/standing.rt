use brace_herd::Stance;
use brace_num::List;
use brace_pieces::{Counts, Piece, Shown};

/// What a part has, and what it exchanges in its step.
#[derive(Drop)]
pub struct Standing {
    pub stance: Stance,
    /// The next free id of the world of its tick.
    pub next: u64,
    /// What it puts, the last first.
    pub out: Vec<Piece>,
    /// What it took.
    pub taken: Vec<Piece>,
    /// Its agents of the shown ticks since the last end.
    pub shown: List<Shown>,
    pub counts: Counts,
}
