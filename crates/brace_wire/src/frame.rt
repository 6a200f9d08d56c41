use brace_pieces::Piece;

/// A piece on its way from one actor to another.
#[derive(Debug, Drop)]
pub struct Frame {
    pub from: u32,
    pub to: u32,
    /// How many pieces came before it in its lane.
    pub ordinal: u64,
    pub piece: Piece,
}
