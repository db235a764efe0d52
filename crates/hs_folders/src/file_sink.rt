// A file of the file system that is written. It tells nothing.
ghost use Rattle.std.specs.Prelude.{◌≡◌, ◌++◌, ◌∷◌, [], IsErrOf, IsTrue, None, OnErr, OnOk};
ghost use Rattle.std.specs.Option.{option_map};
ghost use Rattle.hs_folders.specs.Causes.{HasCause};
ghost use Rattle.hs_folders.specs.FileNames.{is_side_name as is_name_of_side};

use crate::draft::Draft;
use crate::faults::SinkFault;
use crate::file_name::is_side_name;
use crate::sink::Sink;
use std::alloc::Global;
use std::fs::File;
use std::io;
use std::io::ErrorKind;
use std::rt::Files;

/// A file of the file system, which takes the place of what stood there with the first bytes that
/// are written: until then, and where that fails, the old file is whole. It tells neither what it
/// took nor a path.
///
/// A pipe, a device or a folder in its place is a fault, as is a name that a side of a session reads
/// or writes, a file that somebody else is writing in this way, and writing before a file was opened.
#[derive(Drop)]
pub struct FileSink<'r, R: Files<File = File>> {
    rt: &'r R,
    alloc: Global,
    draft: Option<Draft>,
    faults: u64,
}

impl<'r, R: Files<File = File>> FileSink<'r, R> {
    /// No file, until one is opened.
    pub fn new(rt: &'r R, alloc: Global) -> Self
        ensures taken { ⟦<Self as Sink>⟧.taken result ≡ None }
        ensures paths { ⟦<Self as Sink>⟧.paths result ≡ None }
        ensures faults { ⟦<Self as Sink>⟧.faults result ≡ 0 }
    {
        FileSink {
            rt,
            alloc,
            draft: None,
            faults: 0,
        }
    }
}

// What a refusal of the system is, with the count that it leaves.
fn counted(error: &io::Error, faults: &mut u64) -> SinkFault
    ensures { HasCause faults.old faults.new (result ≡ SinkFault.Failed) }
{
    if error.kind() == ErrorKind::OutOfMemory {
        return SinkFault::NoMemory;
    }
    *faults = faults.saturating_add(1);
    SinkFault::Failed
}

fn write_draft<R: Files>(rt: &R, draft: &mut Option<Draft>, bytes: &[u8]) -> io::Result<()> {
    match draft {
        None => Err(io::Error::from(ErrorKind::NotFound)),
        Some(draft) => draft.write(rt, bytes),
    }
}

#[tactic(auto, using(crate::proofs::Prefixes::none_taken))]
impl<'r, R: Files<File = File>> Sink for FileSink<'r, R> {
    ghost taken = { λ _. None };

    ghost paths = { λ _. None };

    ghost faults = { λ sink. sink.faults };

    fn open(&mut self, path: &str) -> Result<(), SinkFault>
        ensures opened { OnOk result (⟦<Self as Sink>⟧.paths self.new ≡ option_map (λ paths.
            paths ++ path.now ∷ []) (⟦<Self as Sink>⟧.paths self.old)) }
        ensures refused { OnErr result (
            ⟦<Self as Sink>⟧.paths self.new ≡ ⟦<Self as Sink>⟧.paths self.old) }
        ensures taken { ⟦<Self as Sink>⟧.taken self.new ≡ ⟦<Self as Sink>⟧.taken self.old }
        ensures cause { HasCause (⟦<Self as Sink>⟧.faults self.old)
            (⟦<Self as Sink>⟧.faults self.new) (IsErrOf result SinkFault.Failed) }

        ensures side_names { IsTrue (is_name_of_side path.now)
            → IsErrOf result SinkFault.Failed }
    {
        if is_side_name(path) {
            self.faults = self.faults.saturating_add(1);
            return Err(SinkFault::Failed);
        }
        match Draft::create(self.rt, self.alloc, path) {
            Ok(draft) => {
                self.draft = Some(draft);
                Ok(())
            }
            Err(error) => Err(counted(&error, &mut self.faults)),
        }
    }

    fn write_all(&mut self, bytes: &[u8]) -> Result<(), SinkFault> {
        match write_draft(self.rt, &mut self.draft, bytes) {
            Ok(()) => Ok(()),
            Err(error) => Err(counted(&error, &mut self.faults)),
        }
    }
}
