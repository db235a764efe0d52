// Reading the files of a folder of backups, one after the other in the order of their names.
ghost use Rattle.std.specs.Prelude.{◌≡◌, ◌≤◌, count_by, IfErr, IfOk, IfSome, IsErrOf, map, string_bytes};
ghost use Rattle.std.specs.List.{AllByRecursion};
ghost use Rattle.hs_folders.specs.Causes.{HasCause};
ghost use Rattle.hs_folders.specs.Moments.{OnlyRead};
ghost use Rattle.palm_device.specs.Bounds.{IsBoundedDatabase};
ghost use Rattle.pdb_values.specs.NamedDatabases.{NamesRise};
ghost use Rattle.handheld_files.specs.Openings.{among};
ghost use Rattle.backup_files.specs.BackupFolders.{AreBackups, HoldsBackups, ShowsBackupFault};
ghost use Rattle.backup_files.specs.BackupNames as file_names;
ghost use Rattle.backup_files.specs.FoundFiles.{ReadsFile, RefusesOne};

use crate::adding::add_file;
use crate::fault::BackupFault;
use crate::found::{Found, nothing_found};
use crate::name::is_backup;
use hs_folders::{Folder, FolderFault};
use pdb_values::Database;
use std::alloc::Global;

// How many databases a handheld can have.
const MOST_DATABASES: usize = 200;

/// Reads the databases of a folder that was opened before. The refusals in their order: the folder fails to be listed, it has
/// files of too many databases, a file fails to be read, is bad, or holds a database of a name that an earlier file's has.
pub fn read_backups<F: Folder>(alloc: Global, folder: &mut F) -> Result<Vec<Database>, BackupFault>
    ensures held { IfOk result (λ databases. IfSome (F.contents folder.old) (λ held.
        HoldsBackups held databases.items)) }
    ensures order { IfOk result (λ databases. NamesRise databases.items) }
    ensures bounded { IfOk result (λ databases.
        AllByRecursion IsBoundedDatabase databases.items) }
    ensures shown { IfErr result (λ fault. IfSome (F.contents folder.old) (ShowsBackupFault fault)) }
    ensures cause { HasCause (F.faults folder.old) (F.faults folder.new)
        (IsErrOf result BackupFault.Failed) }
    ensures only_read { OnlyRead F.contents F.moments F.paths F.faults folder.old folder.new }
{
    let names = folder.list(alloc)?;
    if count_backups(&names) > MOST_DATABASES {
        return Err(BackupFault::TooMany);
    }
    let found = read_files(alloc, folder, &names)?;
    Ok(found.databases)
}

// How many of the names are those of databases' files.
fn count_backups(names: &[String]) -> usize
    ensures { result ≡ count_by file_names.is_backup (map string_bytes names.now) }
{
    names.iter().filter(|name| is_backup(name.as_str())).count()
}

// Reads the files of these names.
fn read_files<F: Folder>(
    alloc: Global,
    folder: &mut F,
    names: &[String],
) -> Result<Found, BackupFault>
    ensures found { IfOk result (λ found. IfSome (F.contents folder.old) (λ held.
        AreBackups (among (map string_bytes names.now) held) found.databases.items)) }
    ensures order { IfOk result (λ found. NamesRise found.databases.items) }
    ensures bounded { IfOk result (λ found. AllByRecursion IsBoundedDatabase found.databases.items) }
    ensures refused { IfErr result (λ fault. IfSome (F.contents folder.old)
        (RefusesOne (map string_bytes names.now) fault)) }
    ensures cause { HasCause (F.faults folder.old) (F.faults folder.new)
        (IsErrOf result BackupFault.Failed) }
    ensures only_read { OnlyRead F.contents F.moments F.paths F.faults folder.old folder.new }
{
    let mut found = nothing_found(alloc);
    for name in names {
        match read_file(alloc, folder, name.as_str(), &mut found) {
            Ok(()) => {}
            Err(fault) => return Err(fault),
        }
    }
    Ok(found)
}

// Reads one file, if it is one of a database and is there.
fn read_file<F: Folder>(
    alloc: Global,
    folder: &mut F,
    name: &str,
    found: &mut Found,
) -> Result<(), BackupFault>
    ensures read { ReadsFile (F.contents folder.old) name.now found.old.databases.items
        found.old.origins.items found.new.databases.items found.new.origins.items result }
    ensures cause { HasCause (F.faults folder.old) (F.faults folder.new)
        (IsErrOf result BackupFault.Failed) }
    ensures only_read { OnlyRead F.contents F.moments F.paths F.faults folder.old folder.new }
{
    if !is_backup(name) {
        return Ok(());
    }
    let bytes = match folder.read(alloc, name) {
        Ok(bytes) => bytes,
        Err(FolderFault::Missing) => return Ok(()),
        Err(fault) => return Err(BackupFault::from(fault)),
    };
    add_file(alloc, name, &bytes, found)
}
