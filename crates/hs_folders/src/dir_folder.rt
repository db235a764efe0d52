// A folder of the file system. It tells nothing.
ghost use Rattle.std.specs.Prelude.{◌≡◌, ◌++◌, ◌∷◌, ◌↔◌, [], IfErr, IfOk, IfSome, IsErrOf, IsOk, IsSome, None, OnErr, OnOk};
ghost use Rattle.std.specs.FinMap as finmap;
ghost use Rattle.std.specs.Option.{option_map};
ghost use Rattle.hs_folders.specs.Causes.{HasCause};
ghost use Rattle.hs_folders.specs.FileNames.{IsFileName};
ghost use Rattle.hs_folders.specs.Opens.{IsBlamedOpen};

use crate::faults::{FolderFault, FolderOpenFault};
use crate::file_name::is_file_name;
use crate::folder::Folder;
use crate::replacement::write_file;
use crate::system_files::{OpenedFolder, list_names, open_folder, read_file, remove_file};
use std::alloc::Global;
use std::fs::File;
use std::io;
use std::io::ErrorKind;
use std::rt::Files;

// The folder in which the program runs.
const WORKING: &str = ".";

/// A folder of the file system. It tells neither its files nor a path.
///
/// A name that leads elsewhere is a fault, and the system is not asked: the empty one, `.`, `..`,
/// and each with a slash or a zero byte. So is a name under which a pipe, a device or a folder
/// stands, where it is to be read.
///
/// From its opening on it is locked, by an advisory lock on the folder itself that ends with this
/// value. A folder that is locked already, be it by this value, is in use. A file system without
/// locks gives none.
///
/// A replacement is written to the file `hotsync.tmp`, made new, which then takes the old file's
/// name and permissions. A new file is its owner's alone where one of the folder's files is not
/// readable to all; else the user's mask decides. Nothing stays of a replacement that failed. Its list leaves out that name and each name that is not UTF-8. A file of more than
/// 4,294,967,295 bytes, and a folder of more names, is a fault.
#[derive(Drop)]
pub struct DirFolder<'r, R: Files<File = File>> {
    rt: &'r R,
    alloc: Global,
    opened: Option<OpenedFolder>,
    faults: u64,
}

impl<'r, R: Files<File = File>> DirFolder<'r, R> {
    /// The folder in which the program runs, until another is opened.
    pub fn new(rt: &'r R, alloc: Global) -> Self
        ensures contents { ⟦<Self as Folder>⟧.contents result ≡ None }
        ensures moments { ⟦<Self as Folder>⟧.moments result ≡ None }
        ensures paths { ⟦<Self as Folder>⟧.paths result ≡ None }
        ensures faults { ⟦<Self as Folder>⟧.faults result ≡ 0 }
    {
        DirFolder {
            rt,
            alloc,
            opened: None,
            faults: 0,
        }
    }

    fn folder(&self) -> &str {
        self.opened
            .as_ref()
            .map_or(WORKING, |opened| opened.path.as_str())
    }

    // Refuses a name that leads out of the folder, as a fault.
    fn checked(&mut self, name: &str) -> Result<(), FolderFault>
        ensures file_name { IsOk result ↔ IsFileName name.now }
        ensures fault { IfErr result (λ fault. fault ≡ FolderFault.Failed) }
        ensures cause { HasCause
            self.old.faults self.new.faults (IsErrOf result FolderFault.Failed) }
    {
        if is_file_name(name) {
            return Ok(());
        }
        self.faults = self.faults.saturating_add(1);
        Err(FolderFault::Failed)
    }

    // Counts a refusal of the system to open a folder.
    fn counted_open<T: Drop>(&mut self, outcome: io::Result<T>) -> Result<T, FolderOpenFault>
        ensures cause { HasCause self.old.faults self.new.faults (IsBlamedOpen result) }
    {
        let blamed = match outcome {
            Ok(value) => return Ok(value),
            Err(error) => match error.kind() {
                ErrorKind::OutOfMemory => return Err(FolderOpenFault::NoMemory),
                ErrorKind::WouldBlock => FolderOpenFault::InUse,
                _ => FolderOpenFault::Failed,
            },
        };
        self.faults = self.faults.saturating_add(1);
        Err(blamed)
    }

    // Counts a refusal of the system.
    fn counted<T: Drop>(&mut self, outcome: io::Result<T>) -> Result<T, FolderFault>
        ensures never_missing { ¬ IsErrOf result FolderFault.Missing }
        ensures cause { HasCause
            self.old.faults self.new.faults (IsErrOf result FolderFault.Failed) }
    {
        match outcome {
            Ok(value) => Ok(value),
            Err(error) if error.kind() == ErrorKind::OutOfMemory => Err(FolderFault::NoMemory),
            Err(_) => {
                self.faults = self.faults.saturating_add(1);
                Err(FolderFault::Failed)
            }
        }
    }
}

impl<'r, R: Files<File = File>> Folder for DirFolder<'r, R> {
    ghost contents = { λ _. None };

    ghost moments = { λ _. None };

    ghost paths = { λ _. None };

    ghost faults = { λ folder. folder.faults };

    fn open(&mut self, path: &str) -> Result<(), FolderOpenFault> {
        let opened = open_folder(self.rt, self.alloc, path);
        self.opened = Some(self.counted_open(opened)?);
        Ok(())
    }

    fn list(&mut self, alloc: Global) -> Result<Vec<String>, FolderFault> {
        let names = list_names(self.rt, alloc, self.folder());
        self.counted(names)
    }

    fn read(&mut self, alloc: Global, name: &str) -> Result<Vec<u8>, FolderFault>
        ensures bytes { IfOk result (λ bytes. IfSome (⟦<Self as Folder>⟧.contents self.old)
            (λ held. finmap.get held name.now ≡ Some bytes.items)) }
        ensures missing { IsErrOf result FolderFault.Missing →
            IfSome (⟦<Self as Folder>⟧.contents self.old) (λ held.
            finmap.get held name.now ≡ None) }
        ensures contents { ⟦<Self as Folder>⟧.contents self.new
            ≡ ⟦<Self as Folder>⟧.contents self.old }
        ensures moments { ⟦<Self as Folder>⟧.moments self.new
            ≡ ⟦<Self as Folder>⟧.moments self.old }
        ensures paths { ⟦<Self as Folder>⟧.paths self.new ≡ ⟦<Self as Folder>⟧.paths self.old }
        ensures cause { HasCause (⟦<Self as Folder>⟧.faults self.old)
            (⟦<Self as Folder>⟧.faults self.new) (IsErrOf result FolderFault.Failed) }

        ensures elsewhere { ¬ IsFileName name.now → IsErrOf result FolderFault.Failed }
    {
        self.checked(name)?;
        match read_file(self.rt, alloc, self.folder(), name) {
            Err(error) if error.kind() == ErrorKind::NotFound => Err(FolderFault::Missing),
            bytes => self.counted(bytes),
        }
    }

    fn replace(&mut self, name: &str, bytes: &[u8]) -> Result<(), FolderFault>
        ensures replaced { OnOk result (⟦<Self as Folder>⟧.contents self.new ≡ option_map (λ held.
            finmap.insert held name.now bytes.now) (⟦<Self as Folder>⟧.contents self.old)) }
        ensures moment { OnOk result (
            ⟦<Self as Folder>⟧.moments self.new ≡ option_map (λ moments. moments
            ++ ⟦<Self as Folder>⟧.contents self.new ∷ []) (⟦<Self as Folder>⟧.moments self.old)) }
        ensures contents_stay { OnErr result (
            ⟦<Self as Folder>⟧.contents self.new ≡ ⟦<Self as Folder>⟧.contents self.old) }
        ensures moments_stay { OnErr result (
            ⟦<Self as Folder>⟧.moments self.new ≡ ⟦<Self as Folder>⟧.moments self.old) }
        ensures paths { ⟦<Self as Folder>⟧.paths self.new ≡ ⟦<Self as Folder>⟧.paths self.old }
        ensures never_missing { ¬ IsErrOf result FolderFault.Missing }
        ensures cause { HasCause (⟦<Self as Folder>⟧.faults self.old)
            (⟦<Self as Folder>⟧.faults self.new) (IsErrOf result FolderFault.Failed) }

        ensures elsewhere { ¬ IsFileName name.now → IsErrOf result FolderFault.Failed }
    {
        self.checked(name)?;
        let written = write_file(self.rt, self.alloc, self.folder(), name, bytes);
        self.counted(written)
    }

    fn remove(&mut self, name: &str) -> Result<(), FolderFault>
        ensures removed { OnOk result (⟦<Self as Folder>⟧.contents self.new ≡ option_map (λ held.
            finmap.remove held name.now) (⟦<Self as Folder>⟧.contents self.old)) }
        ensures found { OnOk result (IfSome (⟦<Self as Folder>⟧.contents self.old) (λ held.
            IsSome (finmap.get held name.now))) }
        ensures moment { OnOk result (
            ⟦<Self as Folder>⟧.moments self.new ≡ option_map (λ moments. moments
            ++ ⟦<Self as Folder>⟧.contents self.new ∷ []) (⟦<Self as Folder>⟧.moments self.old)) }
        ensures missing { IsErrOf result FolderFault.Missing →
            IfSome (⟦<Self as Folder>⟧.contents self.old) (λ held.
            finmap.get held name.now ≡ None) }
        ensures contents_stay { OnErr result (
            ⟦<Self as Folder>⟧.contents self.new ≡ ⟦<Self as Folder>⟧.contents self.old) }
        ensures moments_stay { OnErr result (
            ⟦<Self as Folder>⟧.moments self.new ≡ ⟦<Self as Folder>⟧.moments self.old) }
        ensures paths { ⟦<Self as Folder>⟧.paths self.new ≡ ⟦<Self as Folder>⟧.paths self.old }
        ensures cause { HasCause (⟦<Self as Folder>⟧.faults self.old)
            (⟦<Self as Folder>⟧.faults self.new) (IsErrOf result FolderFault.Failed) }

        ensures elsewhere { ¬ IsFileName name.now → IsErrOf result FolderFault.Failed }
    {
        self.checked(name)?;
        match remove_file(self.rt, self.alloc, self.folder(), name) {
            Err(error) if error.kind() == ErrorKind::NotFound => Err(FolderFault::Missing),
            removed => self.counted(removed),
        }
    }
}
