// A folder in memory that is refused nothing but memory.
ghost use Rattle.std.specs.Prelude.{◌≡◌, ◌≢◌, ◌↔◌, None};

use hs_folders::{Folder, FolderFault, FolderOpenFault, MemFolder};
use std::alloc::Global;

/// A folder in memory, of which no call is to fail. It tells its files alone.
#[derive(Drop)]
pub struct SteadyFolder {
    folder: MemFolder,
}

impl SteadyFolder {
    /// The folder with these files.
    pub fn new(folder: MemFolder) -> Self
        ensures contents { ⟦<Self as Folder>⟧.contents result
            ≡ ⟦<MemFolder as Folder>⟧.contents folder }
    {
        SteadyFolder { folder }
    }
}

impl Folder for SteadyFolder {
    ghost contents = { λ steady. ⟦<MemFolder as Folder>⟧.contents steady.folder };

    ghost moments = { λ steady. None };

    ghost paths = { λ steady. None };

    ghost faults = { λ steady. 0 };

    fn open(&mut self, path: &str) -> Result<(), FolderOpenFault> {
        match self.folder.open(path) {
            Ok(()) => Ok(()),
            Err(_) => Err(FolderOpenFault::NoMemory),
        }
    }

    fn list(&mut self, alloc: Global) -> Result<Vec<String>, FolderFault> {
        match self.folder.list(alloc) {
            Ok(names) => Ok(names),
            Err(fault) => Err(steady_fault(fault)),
        }
    }

    fn read(&mut self, alloc: Global, name: &str) -> Result<Vec<u8>, FolderFault> {
        match self.folder.read(alloc, name) {
            Ok(bytes) => Ok(bytes),
            Err(fault) => Err(steady_fault(fault)),
        }
    }

    fn replace(&mut self, name: &str, bytes: &[u8]) -> Result<(), FolderFault> {
        match self.folder.replace(name, bytes) {
            Ok(()) => Ok(()),
            Err(fault) => Err(steady_fault(fault)),
        }
    }

    fn remove(&mut self, name: &str) -> Result<(), FolderFault> {
        match self.folder.remove(name) {
            Ok(()) => Ok(()),
            Err(fault) => Err(steady_fault(fault)),
        }
    }
}

// What a refusal is where no call is to fail: want of memory, or that a file is not there.
fn steady_fault(fault: FolderFault) -> FolderFault
    ensures steady { result ≢ FolderFault.Failed }
    ensures missing { (result ≡ FolderFault.Missing) ↔ (fault ≡ FolderFault.Missing) }
{
    match fault {
        FolderFault::Missing => FolderFault::Missing,
        FolderFault::Failed | FolderFault::NoMemory => FolderFault::NoMemory,
    }
}
