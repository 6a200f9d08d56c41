ghost use Rattle.std.specs.Prelude.{◌≡◌, ◌≤◌, true};
ghost use Rattle.brace_io.specs.Counts.{next_count};

use crate::count::Count;
use crate::{Failed, Sink};
use std::io::{Stderr, Stdout, Write};

/// A sink over a writer of the host. It counts the writer's failures and does not tell what was
/// written.
#[derive(Drop)]
pub struct HostSink<W: Write + Drop> {
    writer: W,
    faults: Count,
    clean: bool,
}

/// Standard output.
pub type OutSink = HostSink<Stdout>;

/// Standard error.
pub type ErrSink = HostSink<Stderr>;

impl<W: Write + Drop> HostSink<W> {
    /// A clean sink without failures.
    pub fn make(writer: W) -> HostSink<W>
        ensures clean { ⟦<HostSink<W> as Sink>⟧.clean result ≡ true }
        ensures faultless { ⟦<HostSink<W> as Sink>⟧.faults result ≡ 0 }
    {
        HostSink {
            writer,
            faults: Count::zero(),
            clean: true,
        }
    }

    fn fail(&mut self) -> Failed
        ensures clean { self.new.clean ≡ self.old.clean }
        ensures next { self.new.faults ≡ next_count self.old.faults }
        ensures never_falls { self.old.faults ≤ self.new.faults }
    {
        self.faults.raise();
        Failed
    }
}

impl<W: Write + Drop> Sink for HostSink<W> {
    ghost use Rattle.std.specs.Prelude.{None};

    ghost written = { λ _. None };

    ghost faults = { λ sink. sink.faults };

    ghost clean = { λ sink. sink.clean };

    fn write(&mut self, piece: &[u8]) -> Result<usize, Failed> {
        self.clean = false;
        match self.writer.write(piece) {
            Ok(0) if !piece.is_empty() => Err(self.fail()),
            Ok(n) => Ok(n),
            Err(_) => Err(self.fail()),
        }
    }

    fn flush(&mut self) -> Result<(), Failed> {
        match self.writer.flush() {
            Ok(()) => {
                self.clean = true;
                Ok(())
            }
            Err(_) => Err(self.fail()),
        }
    }
}
