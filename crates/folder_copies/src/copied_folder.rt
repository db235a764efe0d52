// A folder in memory that answers as the one would that was copied.
ghost use Rattle.std.specs.Prelude.{◌≡◌, [], Some, None, cond, false, true, OnOk};
ghost use Rattle.std.specs.FinMap as finmap;
ghost use Rattle.std.specs.Option.{option_map};

use hs_folders::{Folder, FolderFault, FolderOpenFault, MemFolder};
use std::alloc::{AllocError, Global};

/// A folder in memory that answers as the one would that was copied.
///
/// Where that one failed to list its names or to read a file, the copy fails at the same call, and
/// tells neither its files nor a path. Else it tells both, and is refused nothing but memory. It
/// never tells its moments.
#[derive(Drop)]
pub struct CopiedFolder {
    held: MemFolder,
    failed: bool,
    unlisted: bool,
    unread: Vec<String>,
    faults: u64,
}

impl CopiedFolder {
    // The copy of a folder without a file.
    pub(crate) fn new(alloc: Global) -> Self
        ensures files { ⟦<MemFolder as Folder>⟧.contents result.held ≡ Some finmap.empty }
        ensures paths { ⟦<MemFolder as Folder>⟧.paths result.held ≡ Some [] }
        ensures failed { result.failed ≡ false }
        ensures faults { result.faults ≡ 0 }
    {
        CopiedFolder {
            held: MemFolder::new(alloc),
            failed: false,
            unlisted: false,
            unread: Vec::new(alloc),
            faults: 0,
        }
    }

    // The same where the names were not listed.
    pub(crate) fn without_names(alloc: Global) -> Self
        ensures failed { result.failed ≡ true }
        ensures faults { result.faults ≡ 0 }
    {
        CopiedFolder {
            held: MemFolder::new(alloc),
            failed: true,
            unlisted: true,
            unread: Vec::new(alloc),
            faults: 0,
        }
    }

    // Puts a file that was read into the copy.
    pub(crate) fn put(&mut self, name: &str, bytes: &[u8]) -> Result<(), AllocError>
        ensures ok { OnOk result (⟦<MemFolder as Folder>⟧.contents self.new.held ≡ option_map
            (λ held. finmap.insert held name.now bytes.now)
            (⟦<MemFolder as Folder>⟧.contents self.old.held)) }
        ensures paths { ⟦<MemFolder as Folder>⟧.paths self.new.held
            ≡ ⟦<MemFolder as Folder>⟧.paths self.old.held }
        ensures failed { self.new.failed ≡ self.old.failed }
        ensures faults { self.new.faults ≡ self.old.faults }
    {
        self.held.put(name, bytes)
    }

    // Puts a file that was not read: it has its name.
    pub(crate) fn put_unread(&mut self, alloc: Global, name: &str) -> Result<(), AllocError>
        ensures failed { OnOk result (self.new.failed ≡ true) }
        ensures faults { self.new.faults ≡ self.old.faults }
    {
        self.held.put(name, &[])?;
        self.unread.push(String::from_str(alloc, name)?)?;
        self.failed = true;
        Ok(())
    }

    // Whether the folder did not read this file. It has, once it is written.
    fn is_unread(&self, name: &str) -> bool {
        self.unread.iter().any(|other| name == other.as_str())
    }

    // The file is no longer one that was not read.
    fn forget(&mut self, name: &str)
        ensures held { self.new.held ≡ self.old.held }
        ensures failed { self.new.failed ≡ self.old.failed }
        ensures faults { self.new.faults ≡ self.old.faults }
    {
        let place = self.unread.iter().position(|other| name == other.as_str());
        if let Some(place) = place {
            self.unread.remove(place);
        }
    }
}

impl Folder for CopiedFolder {
    ghost contents = { λ copy. cond copy.failed None (⟦<MemFolder as Folder>⟧.contents copy.held) };

    ghost moments = { λ _. None };

    ghost paths = { λ copy. cond copy.failed None (⟦<MemFolder as Folder>⟧.paths copy.held) };

    ghost faults = { λ copy. cond copy.failed copy.faults 0 };

    fn open(&mut self, path: &str) -> Result<(), FolderOpenFault> {
        match self.held.open(path) {
            Ok(()) => Ok(()),
            Err(_) => Err(FolderOpenFault::NoMemory),
        }
    }

    fn list(&mut self, alloc: Global) -> Result<Vec<String>, FolderFault> {
        if self.failed && self.unlisted {
            self.faults = self.faults.saturating_add(1);
            return Err(FolderFault::Failed);
        }
        match self.held.list(alloc) {
            Ok(names) => Ok(names),
            Err(_) => Err(FolderFault::NoMemory),
        }
    }

    fn read(&mut self, alloc: Global, name: &str) -> Result<Vec<u8>, FolderFault> {
        if self.failed && self.is_unread(name) {
            self.faults = self.faults.saturating_add(1);
            return Err(FolderFault::Failed);
        }
        match self.held.read(alloc, name) {
            Ok(bytes) => Ok(bytes),
            Err(FolderFault::Missing) => Err(FolderFault::Missing),
            Err(_) => Err(FolderFault::NoMemory),
        }
    }

    fn replace(&mut self, name: &str, bytes: &[u8]) -> Result<(), FolderFault> {
        match self.held.replace(name, bytes) {
            Ok(()) => {
                self.forget(name);
                Ok(())
            }
            Err(_) => Err(FolderFault::NoMemory),
        }
    }

    fn remove(&mut self, name: &str) -> Result<(), FolderFault> {
        match self.held.remove(name) {
            Ok(()) => {
                self.forget(name);
                Ok(())
            }
            Err(FolderFault::Missing) => Err(FolderFault::Missing),
            Err(_) => Err(FolderFault::NoMemory),
        }
    }
}
