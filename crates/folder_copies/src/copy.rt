// How a folder is copied.
ghost use Rattle.std.specs.Prelude.{◌≡◌, ◌≤◌, ◌⊎◌, ◌++◌, ◌∷◌, [], Some, None, false, map, string_bytes, true, IfOk, IfSome, OnOk};
ghost use Rattle.std.specs.Option.{option_map};
ghost use Rattle.hs_folders.specs.Causes.{Rose};
ghost use Rattle.hs_folders.specs.Moments.{OnlyRead};
ghost use Rattle.hs_folders.specs.Opens.{IsBlamedOpen};
ghost use Rattle.folder_copies.specs.declared.copied_folder.CopiedFolder.{CopiedFolder as Copy};
ghost use Rattle.folder_copies.specs.Copies.{CopiesFile, HoldsNamed, IsCopy, TellsPaths};

use crate::copied_folder::CopiedFolder;
use hs_folders::{Folder, FolderFault, FolderOpenFault, MemFolder};
use std::alloc::{AllocError, Global};

/// Opens a folder at this path, and copies all that it holds. The folder is only read, and stays open.
pub fn copy_folder<F: Folder>(
    alloc: Global,
    folder: &mut F,
    path: &str,
) -> Result<CopiedFolder, FolderOpenFault>
    ensures copied { IfOk result (λ copy. IsCopy (F.contents folder.old) (F.faults folder.old)
        (F.faults folder.new) (⟦<CopiedFolder as Folder>⟧.contents copy)) }
    ensures paths_of_copy { IfOk result (λ copy. TellsPaths (F.faults folder.old)
        (F.faults folder.new) (⟦<CopiedFolder as Folder>⟧.paths copy)) }
    ensures moments_of_copy { IfOk result (λ copy.
        ⟦<CopiedFolder as Folder>⟧.moments copy ≡ None) }
    // A copy that tells a path never fails.
    ensures steady { (copy : Copy) → (⟦<CopiedFolder as Folder>⟧.paths copy ≡ None)
        ⊎ (⟦<CopiedFolder as Folder>⟧.faults copy ≡ 0) }

    ensures contents { F.contents folder.new ≡ F.contents folder.old }
    ensures moments { F.moments folder.new ≡ F.moments folder.old }
    ensures opened { OnOk result (F.paths folder.new ≡ option_map (λ paths.
        paths ++ path.now ∷ []) (F.paths folder.old)) }
    ensures path { (F.paths folder.new ≡ F.paths folder.old) ⊎ (F.paths folder.new
        ≡ option_map (λ paths. paths ++ path.now ∷ []) (F.paths folder.old)) }
    ensures later { F.faults folder.old ≤ F.faults folder.new }
    ensures refused { IsBlamedOpen result → Rose (F.faults folder.old) (F.faults folder.new) }
{
    folder.open(path)?;
    match copy_files(alloc, folder) {
        Ok(copy) => Ok(copy),
        Err(AllocError) => Err(FolderOpenFault::NoMemory),
    }
}

// Copies all that an open folder holds.
fn copy_files<F: Folder>(alloc: Global, folder: &mut F) -> Result<CopiedFolder, AllocError>
    ensures copied { IfOk result (λ copy. IsCopy (F.contents folder.old) (F.faults folder.old)
        (F.faults folder.new) (⟦<CopiedFolder as Folder>⟧.contents copy)) }
    ensures paths_of_copy { IfOk result (λ copy. TellsPaths (F.faults folder.old)
        (F.faults folder.new) (⟦<CopiedFolder as Folder>⟧.paths copy)) }
    ensures faults_of_copy { IfOk result (λ copy. copy.faults ≡ 0) }
    ensures only_read { OnlyRead F.contents F.moments F.paths F.faults folder.old folder.new }
{
    match folder.list(alloc) {
        Ok(names) => copy_named(alloc, folder, &names),
        Err(FolderFault::Failed) => Ok(CopiedFolder::without_names(alloc)),
        Err(FolderFault::Missing | FolderFault::NoMemory) => Err(AllocError),
    }
}

// Copies the files of these names.
fn copy_named<F: Folder>(
    alloc: Global,
    folder: &mut F,
    names: &[String],
) -> Result<CopiedFolder, AllocError>
    ensures copied { IfOk result (λ copy. copy.failed ≡ false
        → IfSome (F.contents folder.old) (λ held. HoldsNamed (map string_bytes names.now) held
        (⟦<MemFolder as Folder>⟧.contents copy.held))) }
    ensures unopened { IfOk result (λ copy. copy.failed ≡ false
        → ⟦<MemFolder as Folder>⟧.paths copy.held ≡ Some []) }
    ensures failed { IfOk result (λ copy. copy.failed ≡ true
        → Rose (F.faults folder.old) (F.faults folder.new)) }
    ensures faults_of_copy { IfOk result (λ copy. copy.faults ≡ 0) }
    ensures only_read { OnlyRead F.contents F.moments F.paths F.faults folder.old folder.new }
{
    let mut copy = CopiedFolder::new(alloc);
    for name in names {
        copy_file(alloc, folder, name.as_str(), &mut copy)?;
    }
    Ok(copy)
}

// Copies one file. One that is listed and then missing counts as not there.
fn copy_file<F: Folder>(
    alloc: Global,
    folder: &mut F,
    name: &str,
    copy: &mut CopiedFolder,
) -> Result<(), AllocError>
    ensures copied { OnOk result (copy.new.failed ≡ false
        → CopiesFile name.now (F.contents folder.old) (⟦<MemFolder as Folder>⟧.contents copy.old.held)
        (⟦<MemFolder as Folder>⟧.contents copy.new.held)) }
    ensures unopened { OnOk result (copy.new.failed ≡ false → ⟦<MemFolder as Folder>⟧.paths
        copy.new.held ≡ ⟦<MemFolder as Folder>⟧.paths copy.old.held) }
    ensures stays_failed { OnOk result (copy.new.failed ≡ false → copy.old.failed ≡ false) }
    ensures failed { OnOk result (copy.new.failed ≡ true → (copy.old.failed ≡ true)
        ⊎ Rose (F.faults folder.old) (F.faults folder.new)) }
    ensures faults_of_copy { copy.new.faults ≡ copy.old.faults }
    ensures only_read { OnlyRead F.contents F.moments F.paths F.faults folder.old folder.new }
{
    match folder.read(alloc, name) {
        Ok(bytes) => copy.put(name, &bytes),
        Err(FolderFault::Missing) => Ok(()),
        Err(FolderFault::Failed) => copy.put_unread(alloc, name),
        Err(FolderFault::NoMemory) => Err(AllocError),
    }
}
