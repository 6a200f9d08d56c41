use crate::Portioned;
use brace_io::{Failed, Sink};

impl<O: Sink + Drop> Sink for Portioned<O> {
    ghost written = { λ sink. O.written sink.inner };

    ghost faults = { λ sink. O.faults sink.inner };

    ghost clean = { λ sink. O.clean sink.inner };

    fn write(&mut self, piece: &[u8]) -> Result<usize, Failed> {
        let n = self.portion(piece.len());
        self.inner.write(&piece[..n])
    }

    fn flush(&mut self) -> Result<(), Failed> {
        self.inner.flush()
    }
}
