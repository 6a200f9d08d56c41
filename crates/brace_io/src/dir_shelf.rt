ghost use Rattle.std.specs.Prelude.{◌≡◌, ◌≤◌};
ghost use Rattle.brace_io.specs.Counts.{next_count};
ghost use Rattle.brace_io.specs.Shelves.{Idle, Stopped};

use crate::count::Count;
use crate::draft::Draft;
use crate::host_files::HostFiles;
use crate::{Failed, ReadFault, Shelf};
use std::alloc::Global;
use std::fs::File;
use std::io::{ErrorKind, Read};
use std::rt::Files;

/// Where a shelf of host files stands, with the open file.
#[derive(Drop)]
pub(crate) enum DirStage<F> {
    Idle,
    Reading(F),
    Writing(Draft<F>),
    Stopped,
}

/// A shelf of host files; a name is a path from the current folder. It counts the host's failures
/// and does not tell what files hold.
///
/// A file is written as a draft, `.brace-part-K` in the folder of its name with the first K from 0
/// to 99 under which nothing stands, and takes the name when it is whole and on the disk: until
/// then the name keeps what it had, and so it does where the program ends in between. The draft is
/// removed where the writing fails. A file that had the name leaves its permissions; a symbolic
/// link is replaced; a folder, a pipe, a device and a file that may not be written are a failure.
#[derive(Drop)]
pub struct DirShelf<'a, R: Files> {
    alloc: Global,
    host: HostFiles<'a, R>,
    stage: DirStage<R::File>,
    faults: Count,
}

impl<'a, R: Files> DirShelf<'a, R> {
    ghost use Rattle.std.specs.Prelude.{None};
    ghost use Rattle.brace_io.specs.inner.HostStages.{host_stage};

    /// An idle shelf without failures.
    pub fn make(alloc: Global, rt: &'a R) -> DirShelf<'a, R>
        ensures idle { ⟦<DirShelf<'a, R> as Shelf>⟧.stage result ≡ Idle }
        ensures faultless { ⟦<DirShelf<'a, R> as Shelf>⟧.faults result ≡ 0 }
    {
        DirShelf {
            alloc,
            host: HostFiles { rt },
            stage: DirStage::Idle,
            faults: Count::zero(),
        }
    }

    fn fail(&mut self) -> Failed
        ensures stopped { host_stage self.new.stage ≡ Stopped None }
        ensures next { self.new.faults ≡ next_count self.old.faults }
        ensures never_falls { self.old.faults ≤ self.new.faults }
    {
        if let DirStage::Writing(draft) = &self.stage {
            draft.remove(&mut self.host);
        }
        self.stage = DirStage::Stopped;
        self.faults.raise();
        Failed
    }
}

impl<'a, R: Files> Shelf for DirShelf<'a, R> {
    ghost use Rattle.std.specs.Prelude.{None};
    ghost use Rattle.brace_io.specs.inner.HostStages.{host_stage};

    ghost held = { λ _. None };

    ghost faults = { λ shelf. shelf.faults };

    ghost stage = { λ shelf. host_stage shelf.stage };

    fn begin_read(&mut self, name: &str) -> Result<(), ReadFault> {
        match File::open(self.host.rt, name) {
            Ok(file) => {
                self.stage = DirStage::Reading(file);
                Ok(())
            }
            Err(error) if error.kind() == ErrorKind::NotFound => {
                self.stage = DirStage::Idle;
                Err(ReadFault::Absent)
            }
            Err(_) => {
                self.fail();
                Err(ReadFault::Failed)
            }
        }
    }

    fn read(&mut self, buffer: &mut [u8]) -> Result<usize, Failed> {
        let DirStage::Reading(file) = &mut self.stage else {
            return Err(self.fail());
        };
        match file.read(buffer) {
            Ok(n) => Ok(n),
            Err(_) => Err(self.fail()),
        }
    }

    fn create(&mut self, name: &str) -> Result<(), Failed> {
        match Draft::create(self.alloc, &mut self.host, name) {
            Some(draft) => {
                self.stage = DirStage::Writing(draft);
                Ok(())
            }
            None => Err(self.fail()),
        }
    }

    fn append(&mut self, piece: &[u8]) -> Result<usize, Failed> {
        let DirStage::Writing(draft) = &mut self.stage else {
            return Err(self.fail());
        };
        match draft.write(piece) {
            Ok(0) if !piece.is_empty() => Err(self.fail()),
            Ok(n) => Ok(n),
            Err(_) => Err(self.fail()),
        }
    }

    fn finish(&mut self) -> Result<(), Failed> {
        let DirStage::Writing(draft) = &self.stage else {
            return Err(self.fail());
        };
        match draft.keep(&mut self.host) {
            Ok(()) => {
                self.stage = DirStage::Idle;
                Ok(())
            }
            Err(_) => Err(self.fail()),
        }
    }
}
