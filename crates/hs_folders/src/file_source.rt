// A file of the file system that is read. It tells nothing.
ghost use Rattle.std.specs.Prelude.{◌≡◌, ◌≤◌, None, length, IfOk};
ghost use Rattle.hs_folders.specs.Causes.{HasCause};

use crate::faults::SourceFault;
use crate::source::Source;
use crate::system_files::open_file;
use std::io;
use std::io::{ErrorKind, Read};
use std::rt::Files;

/// A file of the file system, read from its beginning. It tells neither its bytes nor a path.
/// A pipe, a device or a folder in its place is a fault, as is reading before a file was opened.
#[derive(Drop)]
pub struct FileSource<'r, R: Files> {
    rt: &'r R,
    file: Option<R::File>,
    faults: u64,
}

impl<'r, R: Files> FileSource<'r, R> {
    /// No file, until one is opened.
    pub fn new(rt: &'r R) -> Self
        ensures left { ⟦<Self as Source>⟧.left result ≡ None }
        ensures paths { ⟦<Self as Source>⟧.paths result ≡ None }
        ensures faults { ⟦<Self as Source>⟧.faults result ≡ 0 }
    {
        FileSource {
            rt,
            file: None,
            faults: 0,
        }
    }
}

// What a refusal of the system is, with the count that it leaves.
fn counted(error: &io::Error, faults: &mut u64) -> SourceFault
    ensures { HasCause faults.old faults.new (result ≡ SourceFault.Failed) }
{
    if error.kind() == ErrorKind::OutOfMemory {
        return SourceFault::NoMemory;
    }
    *faults = faults.saturating_add(1);
    SourceFault::Failed
}

fn read_some<F: Read>(file: &mut Option<F>, room: &mut [u8]) -> io::Result<usize>
    ensures { IfOk result (λ count. count ≤ length room.new) }
{
    match file {
        None => Err(io::Error::from(ErrorKind::NotFound)),
        Some(file) => file.read(room),
    }
}

impl<'r, R: Files> Source for FileSource<'r, R> {
    ghost left = { λ _. None };

    ghost paths = { λ _. None };

    ghost faults = { λ source. source.faults };

    fn open(&mut self, path: &str) -> Result<(), SourceFault> {
        match open_file(self.rt, path) {
            Ok(file) => {
                self.file = Some(file);
                Ok(())
            }
            Err(error) => Err(counted(&error, &mut self.faults)),
        }
    }

    fn read(&mut self, room: &mut [u8]) -> Result<usize, SourceFault> {
        match read_some(&mut self.file, room) {
            Ok(count) => Ok(count),
            Err(error) => Err(counted(&error, &mut self.faults)),
        }
    }
}
