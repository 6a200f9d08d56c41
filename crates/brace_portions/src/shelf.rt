use crate::Portioned;
use brace_io::{Failed, ReadFault, Shelf};

impl<S: Shelf + Drop> Shelf for Portioned<S> {
    ghost held = { λ shelf. S.held shelf.inner };

    ghost faults = { λ shelf. S.faults shelf.inner };

    ghost stage = { λ shelf. S.stage shelf.inner };

    fn begin_read(&mut self, name: &str) -> Result<(), ReadFault> {
        self.inner.begin_read(name)
    }

    fn read(&mut self, buffer: &mut [u8]) -> Result<usize, Failed> {
        let n = self.portion(buffer.len());
        self.inner.read(&mut buffer[..n])
    }

    fn create(&mut self, name: &str) -> Result<(), Failed> {
        self.inner.create(name)
    }

    fn append(&mut self, piece: &[u8]) -> Result<usize, Failed> {
        let n = self.portion(piece.len());
        self.inner.append(&piece[..n])
    }

    fn finish(&mut self) -> Result<(), Failed> {
        self.inner.finish()
    }
}
