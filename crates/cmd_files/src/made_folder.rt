// A folder that is made where it isn't there.
ghost use Rattle.std.specs.Prelude.{◌≡◌};

use hs_folders::{Folder, FolderFault, FolderOpenFault};
use std::alloc::Global;
use std::fs;
use std::rt::Files;

/// A folder that the system is asked to make before it is opened, where that is wanted. It tells what the folder behind it tells;
/// where none can be made, its opening says so.
#[derive(Drop)]
pub struct MadeFolder<'r, R, F> {
    rt: &'r R,
    folder: F,
    is_wanted: bool,
}

impl<'r, R: Files, F: Folder> MadeFolder<'r, R, F> {
    /// The folder, which is made only where that is wanted.
    pub fn new(rt: &'r R, folder: F, is_wanted: bool) -> Self
        ensures contents { ⟦<Self as Folder>⟧.contents result ≡ F.contents folder }
        ensures moments { ⟦<Self as Folder>⟧.moments result ≡ F.moments folder }
        ensures paths { ⟦<Self as Folder>⟧.paths result ≡ F.paths folder }
        ensures faults { ⟦<Self as Folder>⟧.faults result ≡ F.faults folder }
    {
        MadeFolder {
            rt,
            folder,
            is_wanted,
        }
    }
}

impl<'r, R: Files, F: Folder> Folder for MadeFolder<'r, R, F> {
    ghost contents = { λ made. F.contents made.folder };

    ghost moments = { λ made. F.moments made.folder };

    ghost paths = { λ made. F.paths made.folder };

    ghost faults = { λ made. F.faults made.folder };

    fn open(&mut self, path: &str) -> Result<(), FolderOpenFault> {
        if self.is_wanted {
            let _ = fs::create_dir(self.rt, path);
        }
        self.folder.open(path)
    }

    fn list(&mut self, alloc: Global) -> Result<Vec<String>, FolderFault> {
        self.folder.list(alloc)
    }

    fn read(&mut self, alloc: Global, name: &str) -> Result<Vec<u8>, FolderFault> {
        self.folder.read(alloc, name)
    }

    fn replace(&mut self, name: &str, bytes: &[u8]) -> Result<(), FolderFault> {
        self.folder.replace(name, bytes)
    }

    fn remove(&mut self, name: &str) -> Result<(), FolderFault> {
        self.folder.remove(name)
    }
}
