/// What becomes of a frame that is sent.
#[derive(Debug, Clone, Copy, PartialEq, Eq, Drop)]
pub enum Fate {
    /// It is lost.
    Lose,
    /// It is handed over at once.
    Deliver,
    /// It is handed over twice at once.
    Twice,
    /// It is handed over at the end of the next round.
    After,
}
