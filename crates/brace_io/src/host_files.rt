ghost use Rattle.std.specs.Prelude.{◌≡◌, true};
ghost use Rattle.std.specs.Fs.{asks_create_new};

use crate::host::Host;
use std::fs::{OpenFile, OpenOptions, Permissions, remove_file, rename, symlink_metadata};
use std::io::{self, ErrorKind};
use std::os::unix::fs::OpenOptionsExt;
use std::rt::Files;

/// The host's own files, of which it tells nothing.
#[derive(Drop)]
pub(crate) struct HostFiles<'a, R: Files> {
    pub(crate) rt: &'a R,
}

impl<'a, R: Files> Host for HostFiles<'a, R> {
    ghost use Rattle.std.specs.Prelude.{None};

    type File = R::File;

    ghost files = { λ _. None };

    fn permissions(&self, path: &str) -> io::Result<Option<Permissions>> {
        match symlink_metadata(self.rt, path) {
            Ok(found) if found.is_symlink() => Ok(None),
            Ok(found) if found.is_file() => {
                let file = OpenOptions::new().write(true).open(self.rt, path)?;
                Ok(Some(file.metadata()?.permissions()))
            }
            Ok(_) => Err(io::Error::from(ErrorKind::AlreadyExists)),
            Err(error) if error.kind() == ErrorKind::NotFound => Ok(None),
            Err(error) => Err(error),
        }
    }

    fn make_new(&mut self, path: &str, private: bool) -> io::Result<R::File> {
        new_file(private).open(self.rt, path)
    }

    fn rename(&mut self, from: &str, to: &str) -> io::Result<()> {
        rename(self.rt, from, to)
    }

    fn remove(&mut self, path: &str) {
        match remove_file(self.rt, path) {
            Ok(()) | Err(_) => {}
        }
    }
}

/// How a file is opened for writing that is to be made by this call, and by no other.
fn new_file(private: bool) -> OpenOptions
    ensures { asks_create_new result ≡ true }
{
    let mut options = OpenOptions::new();
    if private {
        options.mode(0o600);
    }
    options.write(true).create_new(true);
    options
}
