// The changes of a handheld's files.
ghost use Rattle.std.specs.Prelude.{◌≡◌, IfOk, IsErrOf, OnOk, is_err, string_bytes};
ghost use Rattle.std.specs.FinMap as finmap;
ghost use Rattle.std.specs.Option.{option_map};
ghost use Rattle.hs_folders.specs.Moments.{OneChange};
ghost use Rattle.pdb_files.specs.Files.{IsFileText, canonical};
ghost use Rattle.folder_files.specs.FileNames as file_names;
ghost use Rattle.folder_files.specs.InfoFiles.{IsDeviceFile, device_text};
ghost use Rattle.handheld_store.specs.Refusals.{stops};

use crate::fault::StoreFault;
use folder_files::{DEVICE_INFO, database_file, write_device_info};
use hs_folders::{Folder, FolderFault};
use pdb_files::write_database;
use pdb_values::{Database, DbHead, UserInfo};
use std::alloc::{AllocError, Global};

/// The name and the bytes of a file that is to be written.
#[derive(Drop)]
pub struct NewFile {
    pub name: String,
    pub bytes: Vec<u8>,
}

/// The file of a database.
pub fn file_of(alloc: Global, database: &Database) -> Result<NewFile, AllocError>
    ensures name { IfOk result (λ file.
        string_bytes file.name ≡ file_names.database_file database.now.head) }
    ensures bytes { IfOk result (λ file. file.bytes.items ≡ canonical database.now) }
    ensures text { IfOk result (λ file. IsFileText database.now file.bytes.items) }
{
    let name = database_file(alloc, database.head())?;
    let bytes = write_database(alloc, database)?;
    Ok(NewFile { name, bytes })
}

/// Writes one file of the folder.
#[tactic(auto, using(hs_folders::proofs::MomentLaws::no_moment, hs_folders::proofs::MomentLaws::one_change))]
pub fn write_file<F: Folder>(folder: &mut F, name: &str, bytes: &[u8]) -> Result<(), StoreFault>
    ensures written { OnOk result (F.contents folder.new ≡ option_map (λ held.
        finmap.insert held name.now bytes.now) (F.contents folder.old)) }
    ensures change { OneChange F.contents F.moments F.paths F.faults folder.old folder.new
        result (IsErrOf result StoreFault.KeeperFault) }
    ensures stops { stops result ≡ is_err result }
{
    folder.replace(name, bytes)?;
    Ok(())
}

/// Writes the file of a database.
pub fn write_database_file<F: Folder>(
    alloc: Global,
    folder: &mut F,
    database: &Database,
) -> Result<(), StoreFault>
    ensures written { OnOk result (F.contents folder.new ≡ option_map (λ held.
        finmap.insert held (file_names.database_file database.now.head) (canonical database.now))
        (F.contents folder.old)) }
    ensures text { OnOk result (IsFileText database.now (canonical database.now)) }
    ensures change { OneChange F.contents F.moments F.paths F.faults folder.old folder.new
        result (IsErrOf result StoreFault.KeeperFault) }
    ensures stops { stops result ≡ is_err result }
{
    let file = file_of(alloc, database)?;
    write_file(folder, file.name.as_str(), &file.bytes)
}

/// Removes one file of the folder. One that is missing is removed already.
#[tactic(auto, using(hs_folders::proofs::MomentLaws::no_moment, hs_folders::proofs::MomentLaws::one_change, handheld_files::proofs::ChangeLaws::missing_is_gone))]
pub fn remove_file<F: Folder>(folder: &mut F, name: &str) -> Result<(), StoreFault>
    ensures removed { OnOk result (F.contents folder.new ≡ option_map (λ held.
        finmap.remove held name.now) (F.contents folder.old)) }
    ensures change { OneChange F.contents F.moments F.paths F.faults folder.old folder.new
        result (IsErrOf result StoreFault.KeeperFault) }
    ensures stops { stops result ≡ is_err result }
{
    match folder.remove(name) {
        Ok(()) => Ok(()),
        Err(FolderFault::Missing) => Ok(()),
        Err(fault) => Err(StoreFault::from(fault)),
    }
}

/// Removes the file of a database.
pub fn remove_database_file<F: Folder>(
    alloc: Global,
    folder: &mut F,
    head: &DbHead,
) -> Result<(), StoreFault>
    ensures removed { OnOk result (F.contents folder.new ≡ option_map (λ held.
        finmap.remove held (file_names.database_file head.now)) (F.contents folder.old)) }
    ensures change { OneChange F.contents F.moments F.paths F.faults folder.old folder.new
        result (IsErrOf result StoreFault.KeeperFault) }
    ensures stops { stops result ≡ is_err result }
{
    let name = database_file(alloc, head)?;
    remove_file(folder, name.as_str())
}

/// Writes the information file.
pub fn write_user<F: Folder>(
    alloc: Global,
    folder: &mut F,
    user: &UserInfo,
) -> Result<(), StoreFault>
    ensures written { OnOk result (F.contents folder.new ≡ option_map (λ held.
        finmap.insert held file_names.device_info_file (device_text user.now))
        (F.contents folder.old)) }
    ensures file { OnOk result (IsDeviceFile user.now (device_text user.now)) }
    ensures change { OneChange F.contents F.moments F.paths F.faults folder.old folder.new
        result (IsErrOf result StoreFault.KeeperFault) }
    ensures stops { stops result ≡ is_err result }
{
    let text = write_device_info(alloc, user)?;
    write_file(folder, DEVICE_INFO, text.as_bytes())
}
