/// A gate that each worker passes before a partition's query of a tick. It may wait, and promises
/// nothing.
pub trait Gate {
    /// Passes the gate; `bench` is the worker's number, counted from 0, and `tick` the tick that
    /// begins.
    fn pass(&self, bench: usize, tick: u64);
}

/// A gate that is always open.
#[derive(Debug, Clone, Copy, Drop)]
pub struct OpenGate;

impl Gate for OpenGate {
    fn pass(&self, _bench: usize, _tick: u64) {}
}
