ghost use Rattle.std.specs.Prelude.{Option, OnOk, OnErr, ◌≡◌};
ghost use Rattle.brace_io.specs.Shelves.{Files, held_at, Lacks, OnlyAt};
ghost use Rattle.brace_io.specs.inner.Drafts.{OnlyAtBoth};

use std::fs::{OpenFile, Permissions};
use std::io::{self, Write};

/// The calls of a host by which a draft is made and comes to its name.
pub(crate) trait Host {
    type File: Write + OpenFile + Drop;

    /// The files that stand at paths, where the host tells them.
    ghost files: { Self → Option Files };

    /// The permissions of the file at a path; None where nothing stands there, or a symbolic link.
    fn permissions(&self, path: &str) -> io::Result<Option<Permissions>>;

    /// Makes an empty file at a path where nothing stands; a private one is its owner's alone.
    fn make_new(&mut self, path: &str, private: bool) -> io::Result<Self::File>
        ensures free { OnOk result (Lacks (files self.old) path.now) }
        ensures only { OnOk result (OnlyAt (files self.old) (files self.new) path.now) }
        ensures same { OnErr result (files self.new ≡ files self.old) };

    /// Gives what stands at a path another path, in place of what stood there.
    fn rename(&mut self, from: &str, to: &str) -> io::Result<()>
        ensures only { OnlyAtBoth (files self.old) (files self.new) from.now to.now }
        ensures moved { OnOk result
            (held_at (files self.new) to.now ≡ held_at (files self.old) from.now) }
        ensures same { OnErr result (files self.new ≡ files self.old) };

    /// Removes the file at a path, where the host can.
    fn remove(&mut self, path: &str)
        ensures only { OnlyAt (files self.old) (files self.new) path.now };
}
