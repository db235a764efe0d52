// Reading a handheld's folder, file by file in the order of their names.
ghost use Rattle.std.specs.Prelude.{◌≡◌, ◌≢◌, ◌+◌, ◌≤◌, ◌<◌, count_by, IfErr, IfOk, IfSome, IsErrOf, OnErr, OnOk, length, map, string_bytes, take};
ghost use Rattle.hs_folders.specs.Causes.{HasCause};
ghost use Rattle.hs_folders.specs.Moments.{OnlyRead};
ghost use Rattle.handheld_files.specs.Handhelds.{StandFor, is_database_file as is_name_of_database};
ghost use Rattle.handheld_files.specs.Openings.{AreKept, HoldsAll, ShowsOpenFault, among, opened_device};
ghost use Rattle.handheld_files.specs.Reading.{ReadsFile, RefusesOne};
ghost use Rattle.palm_device.specs.Bounds.{IsBounded};

use crate::fault::OpenFault;
use crate::handheld::{Handheld, add_file, empty_handheld, is_database_file};
use folder_files::is_handheld_file;
use hs_folders::{Folder, FolderFault};
use std::alloc::Global;

// How many databases a handheld can have.
const MOST_DATABASES: usize = 200;

/// Reads all databases and the user of a folder that was opened before. The refusals in their
/// order: the folder fails to be listed, it has files of too many databases, a file fails to be read
/// or is bad. Whatever the folder tells, the values keep the bounds of their types.
pub fn read_folder<F: Folder>(alloc: Global, folder: &mut F) -> Result<Handheld, OpenFault>
    ensures held { IfOk result (λ handheld. IfSome (F.contents folder.old) (λ held.
        HoldsAll held handheld.databases.items handheld.user)) }
    ensures kept { IfOk result (λ handheld. AreKept handheld.databases.items) }
    ensures bounded { IfOk result (λ handheld. IsBounded (opened_device handheld.databases.items
        handheld.user)) }
    ensures shown { IfErr result (λ fault. IfSome (F.contents folder.old) (ShowsOpenFault fault)) }
    ensures cause { HasCause (F.faults folder.old) (F.faults folder.new)
        (IsErrOf result OpenFault.Keeper) }
    ensures only_read { OnlyRead F.contents F.moments F.paths F.faults folder.old folder.new }
{
    let names = folder.list(alloc)?;
    if count_databases(&names) > MOST_DATABASES {
        return Err(OpenFault::TooMany);
    }
    read_files(alloc, folder, &names)
}

// How many of the names are those of databases.
fn count_databases(names: &[String]) -> usize
    ensures { result ≡ count_by is_name_of_database (map string_bytes names.now) }
{
    names
        .iter()
        .filter(|name| is_database_file(name.as_str()))
        .count()
}

// Reads the files of these names.
fn read_files<F: Folder>(
    alloc: Global,
    folder: &mut F,
    names: &[String],
) -> Result<Handheld, OpenFault>
    requires few { count_by is_name_of_database (map string_bytes names.now) ≤ 200 }
    ensures stand { IfOk result (λ handheld. IfSome (F.contents folder.old) (λ held.
        StandFor (among (map string_bytes names.now) held) handheld.databases.items
        handheld.user)) }
    ensures kept { IfOk result (λ handheld. AreKept handheld.databases.items) }
    ensures bounded { IfOk result (λ handheld. IsBounded (opened_device handheld.databases.items
        handheld.user)) }
    ensures refused { IfErr result (λ fault. IfSome (F.contents folder.old)
        (RefusesOne (map string_bytes names.now) fault)) }
    ensures cause { HasCause (F.faults folder.old) (F.faults folder.new)
        (IsErrOf result OpenFault.Keeper) }
    ensures only_read { OnlyRead F.contents F.moments F.paths F.faults folder.old folder.new }
{
    let mut handheld = empty_handheld(alloc);
    for name in names {
        match read_file(alloc, folder, name.as_str(), &mut handheld) {
            Ok(()) => {}
            Err(fault) => return Err(fault),
        }
    }
    Ok(handheld)
}

// Reads one file, if it is one that a handheld reads and is there.
fn read_file<F: Folder>(
    alloc: Global,
    folder: &mut F,
    name: &str,
    handheld: &mut Handheld,
) -> Result<(), OpenFault>
    ensures read { ReadsFile (F.contents folder.old) name.now handheld.old.databases.items
        handheld.old.user handheld.new.databases.items handheld.new.user result }
    ensures cause { HasCause (F.faults folder.old) (F.faults folder.new)
        (IsErrOf result OpenFault.Keeper) }
    ensures only_read { OnlyRead F.contents F.moments F.paths F.faults folder.old folder.new }
{
    if !is_handheld_file(name) {
        return Ok(());
    }
    let bytes = match folder.read(alloc, name) {
        Ok(bytes) => bytes,
        Err(FolderFault::Missing) => return Ok(()),
        Err(fault) => return Err(OpenFault::from(fault)),
    };
    add_file(alloc, name, &bytes, handheld)
}
