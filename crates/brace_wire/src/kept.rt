use crate::Frame;

/// A piece that its sender keeps, as the frame that carries it, and how often it was sent.
#[derive(Debug, Drop)]
pub struct Kept {
    pub frame: Frame,
    pub sent: u64,
}
