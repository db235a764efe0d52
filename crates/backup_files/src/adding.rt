// The database of one file, beside those that were found before it.
ghost use Rattle.std.specs.Prelude.{◌≡◌, IfErr, IfOk, OnOk, string_bytes};
ghost use Rattle.pdb_files.specs.Files.{IsFileText};
ghost use Rattle.backup_files.specs.FoundFiles.{Adds, FileShows, IsBrokenFile, IsSameFault, StoredShows};

use crate::fault::BackupFault;
use crate::found::{Found, Origin, origin_of};
use pdb_files::{FileFault, read_database};
use pdb_values::{Database, insert_database};
use std::alloc::{AllocError, Global};

/// Adds the database of a file.
pub fn add_file(
    alloc: Global,
    name: &str,
    bytes: &[u8],
    found: &mut Found,
) -> Result<(), BackupFault>
    ensures added { OnOk result (Adds found.old.databases.items found.old.origins.items
        name.now bytes.now found.new.databases.items found.new.origins.items) }
    ensures shown { IfErr result (FileShows found.old.origins.items name.now bytes.now) }
{
    let database = stored_database(alloc, name, bytes)?;
    match origin_of(&found.origins, &database.head().name) {
        Some(origin) => return Err(same_database(alloc, origin.file.as_str(), name)),
        None => {}
    }
    let origin = Origin {
        file: String::from_str(alloc, name)?,
        name: database.head().name.copy(),
    };
    found.origins.push(origin)?;
    insert_database(&mut found.databases, database)?;
    Ok(())
}

// The database of these bytes of a file.
fn stored_database(alloc: Global, name: &str, bytes: &[u8]) -> Result<Database, BackupFault>
    ensures file { IfOk result (λ stored. IsFileText stored bytes.now) }
    ensures shown { IfErr result (StoredShows name.now bytes.now) }
{
    match read_database(alloc, bytes) {
        Ok(database) => Ok(database),
        Err(fault) => Err(broken_file(alloc, name, fault)),
    }
}

// The refusal of two files with databases of one name, where memory serves for their names.
fn same_database(alloc: Global, first: &str, second: &str) -> BackupFault
    ensures { IsSameFault first.now second.now result }
{
    match both_names(alloc, first, second) {
        Ok((first, second)) => BackupFault::SameDatabase { first, second },
        Err(AllocError) => BackupFault::NoMemory,
    }
}

// Both names, copied.
fn both_names(alloc: Global, first: &str, second: &str) -> Result<(String, String), AllocError>
    ensures { IfOk result (λ names. (string_bytes names.0 ≡ first.now)
        × (string_bytes names.1 ≡ second.now)) }
{
    let first = String::from_str(alloc, first)?;
    let second = String::from_str(alloc, second)?;
    Ok((first, second))
}

// The refusal that a broken file makes.
fn broken_file(alloc: Global, name: &str, fault: FileFault) -> BackupFault
    ensures { IsBrokenFile name.now fault result }
{
    let Some((kind, place)) = fault.bad_file() else {
        return BackupFault::NoMemory;
    };
    match String::from_str(alloc, name) {
        Ok(name) => BackupFault::BadFile { name, kind, place },
        Err(AllocError) => BackupFault::NoMemory,
    }
}
