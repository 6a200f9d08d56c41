ghost use Rattle.std.specs.Prelude.{◌≡◌, ◌≤◌, length, IfOk, IfSome, OnOk, OnErr, MatchOption, string_bytes};
ghost use Rattle.std.specs.Path.{path_buf_bytes, path_with_file_name};
ghost use Rattle.brace_io.specs.Shelves.{held_at, Lacks, OnlyAt};
ghost use Rattle.brace_io.specs.inner.Drafts.{StandsBeside, Keeps, OnlyAtBoth, draft_name};

use crate::host::Host;
use std::alloc::Global;
use std::fs::{OpenFile, Permissions};
use std::io::{self, ErrorKind, Write};
use std::path::{Path, PathBuf};

/// How many paths are tried for a draft.
const TRIES: u32 = 100;

/// A host file that is written in the folder of the name that it is to have.
#[derive(Drop)]
pub(crate) struct Draft<F> {
    file: F,
    /// Where it stands.
    beside: PathBuf,
    /// The name that it takes when it is whole.
    name: String,
}

impl<F: Write + OpenFile + Drop> Draft<F> {
    /// An empty file at a path that was free, with the permissions of the file that has the name;
    /// None where the host or the allocator refused it.
    pub(crate) fn create<H: Host<File = F>>(
        alloc: Global,
        host: &mut H,
        name: &str,
    ) -> Option<Draft<F>>
        ensures keeps { Keeps (H.files host.old) (H.files host.new) }
        ensures named { IfSome result (λ draft. string_bytes draft.name ≡ name.now) }
        ensures beside { IfSome result
            (λ draft. StandsBeside name.now (path_buf_bytes draft.beside)) }
        ensures free { IfSome result
            (λ draft. Lacks (H.files host.old) (path_buf_bytes draft.beside)) }
    {
        let kept = host.permissions(name).ok()?;
        let name = String::from_str(alloc, name).ok()?;
        let (file, beside) = make_beside(alloc, host, name.as_str(), kept.is_some())?;
        let draft = Draft { file, beside, name };
        if draft.give(kept).is_err() {
            draft.remove(host);
            return None;
        }
        Some(draft)
    }

    /// Gives the file the permissions, where there are some.
    fn give(&self, kept: Option<Permissions>) -> io::Result<()> {
        match kept {
            Some(kept) if self.file.metadata()?.permissions() != kept => {
                self.file.set_permissions(kept)
            }
            _ => Ok(()),
        }
    }

    /// Writes a front of a piece behind what was written, and answers its length in bytes.
    pub(crate) fn write(&mut self, piece: &[u8]) -> io::Result<usize>
        ensures { IfOk result (λ n. n ≤ length piece.now) }
    {
        self.file.write(piece)
    }

    /// Brings the file to the disk, and then to its name, in place of what had the name. After a
    /// failure it is where it was.
    pub(crate) fn keep<H: Host<File = F>>(&self, host: &mut H) -> io::Result<()>
        ensures only { OnlyAtBoth (H.files host.old) (H.files host.new)
            (path_buf_bytes self.now.beside) (string_bytes self.now.name) }
        ensures moved { OnOk result (held_at (H.files host.new) (string_bytes self.now.name)
            ≡ held_at (H.files host.old) (path_buf_bytes self.now.beside)) }
        ensures same { OnErr result (H.files host.new ≡ H.files host.old) }
    {
        self.file.sync_all()?;
        host.rename(self.beside.as_str(), self.name.as_str())
    }

    /// Removes the file, where the host can.
    pub(crate) fn remove<H: Host<File = F>>(&self, host: &mut H)
        ensures only { OnlyAt (H.files host.old) (H.files host.new)
            (path_buf_bytes self.now.beside) }
    {
        host.remove(self.beside.as_str());
    }
}

/// Makes a file in the folder of a name, at the first path of a few where nothing stands.
fn make_beside<H: Host>(
    alloc: Global,
    host: &mut H,
    name: &str,
    private: bool,
) -> Option<(H::File, PathBuf)>
    ensures beside { IfSome result (λ made. StandsBeside name.now (path_buf_bytes made.1)) }
    ensures free { IfSome result (λ made. Lacks (H.files host.old) (path_buf_bytes made.1)) }
    ensures only { MatchOption result (H.files host.new ≡ H.files host.old)
        (λ made. OnlyAt (H.files host.old) (H.files host.new) (path_buf_bytes made.1)) }
{
    for number in 0..TRIES {
        let beside = beside(alloc, name, number)?;
        match host.make_new(beside.as_str(), private) {
            Ok(file) => return Some((file, beside)),
            Err(error) if error.kind() == ErrorKind::AlreadyExists => {}
            Err(_) => return None,
        }
    }
    None
}

/// A path in the folder of a name.
fn beside(alloc: Global, name: &str, number: u32) -> Option<PathBuf>
    ensures { IfSome result (λ path. path_buf_bytes path
        ≡ path_with_file_name name.now (draft_name number)) }
{
    let file = format!(in alloc; ".brace-part-{number}").ok()?;
    Path::new(name).with_file_name(alloc, file.as_str()).ok()
}
