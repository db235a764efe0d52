// The databases and the user of a handheld, as they are read file by file.
ghost use Rattle.std.specs.Prelude.{◌≡◌, ◌≢◌, [], IfErr, IfOk, OnErr, OnOk, OnSome, IfNone, IsErrOf, None, string_bytes, true, false, is_some};
ghost use Rattle.pdb_values.specs.NamedDatabases as named;
ghost use Rattle.folder_files.specs.FileNames as file_names;
ghost use Rattle.handheld_files.specs.Adding.{AddsDatabase, AddsFile, FileShows, IsBadFile, IsBrokenFile, StoredShows};
ghost use Rattle.handheld_files.specs.Handhelds.{IsFileOf, is_database_file as is_name_of_database, no_user};

use crate::fault::OpenFault;
use crate::settling::settle;
use folder_files::{database_file, read_device_info};
use pdb_files::{BadKind, FileFault, read_database};
use pdb_values::{Database, PalmDate, Password, UserInfo, UserName, database_of, insert_database};
use std::alloc::{AllocError, Global};

/// What a handheld's folder stands for.
#[derive(Drop)]
pub struct Handheld {
    /// The databases in byte order of their names.
    pub databases: Vec<Database>,
    /// What the handheld knows of its user.
    pub user: UserInfo,
}

// A handheld with no database, which knows nothing of its user.
pub fn empty_handheld(alloc: Global) -> Handheld
    ensures databases { result.databases.items ≡ [] }
    ensures user { result.user ≡ no_user }
{
    Handheld {
        databases: Vec::new(alloc),
        user: UserInfo {
            user: 0,
            viewer: 0,
            pc: 0,
            good: PalmDate::of_seconds(0),
            last: PalmDate::of_seconds(0),
            name: UserName::new(&[]).unwrap(),
            password: Password::new(&[]).unwrap(),
        },
    }
}

// Whether a file of this name is one of a database.
pub fn is_database_file(name: &str) -> bool
    ensures { result ≡ is_name_of_database name.now }
{
    let bytes = name.as_bytes();
    bytes.ends_with(b".pdb") || bytes.ends_with(b".prc")
}

// Adds what a file stands for.
pub fn add_file(
    alloc: Global,
    name: &str,
    bytes: &[u8],
    handheld: &mut Handheld,
) -> Result<(), OpenFault>
    ensures added { OnOk result (AddsFile handheld.old.databases.items handheld.old.user
        name.now bytes.now handheld.new.databases.items handheld.new.user) }
    ensures shown { IfErr result (FileShows handheld.old.databases.items name.now bytes.now) }
{
    if is_database_file(name) {
        add_database(alloc, name, bytes, &mut handheld.databases)?;
        return Ok(());
    }
    match read_device_info(bytes) {
        Ok(user) => {
            handheld.user = user;
            Ok(())
        }
        Err(line) => Err(bad_file(alloc, name, BadKind::Info, line.place)),
    }
}

// Adds the database of a file.
fn add_database(
    alloc: Global,
    name: &str,
    bytes: &[u8],
    databases: &mut Vec<Database>,
) -> Result<(), OpenFault>
    requires { is_name_of_database name.now ≡ true }
    ensures added { OnOk result (
        AddsDatabase databases.old.items name.now bytes.now databases.new.items) }
    ensures shown { IfErr result (FileShows databases.old.items name.now bytes.now) }
{
    let mut database = named_database(alloc, name, bytes)?;
    if has_database(databases, &database) {
        return Err(bad_file(alloc, name, BadKind::Twice, 0));
    }
    settle(alloc, &mut database)?;
    insert_database(databases, database)?;
    Ok(())
}

// Whether one of the databases has the name of this one.
fn has_database(databases: &[Database], database: &Database) -> bool
    ensures { result ≡ is_some (named.database_of database.now.head.name databases.now) }
{
    database_of(databases, database.head().name.as_bytes()).is_some()
}

// The database of a file that bears its name.
fn named_database(alloc: Global, name: &str, bytes: &[u8]) -> Result<Database, OpenFault>
    ensures file { IfOk result (λ stored. IsFileOf stored name.now bytes.now) }
    ensures shown { IfErr result (StoredShows name.now bytes.now) }
{
    let database = match read_database(alloc, bytes) {
        Ok(database) => database,
        Err(fault) => return Err(broken_file(alloc, name, fault)),
    };
    let file_name = database_file(alloc, database.head())?;
    if file_name.as_str() != name {
        return Err(bad_file(alloc, name, BadKind::FileName, 0));
    }
    Ok(database)
}

// The refusal that a broken file makes.
fn broken_file(alloc: Global, name: &str, fault: FileFault) -> OpenFault
    ensures { IsBrokenFile name.now fault result }
{
    match fault.bad_file() {
        Some((kind, place)) => bad_file(alloc, name, kind, place),
        None => OpenFault::NoMemory,
    }
}

// The refusal of a bad file, where memory serves for its name.
fn bad_file(alloc: Global, name: &str, kind: BadKind, place: u64) -> OpenFault
    ensures { IsBadFile name.now kind place result }
{
    match String::from_str(alloc, name) {
        Ok(name) => OpenFault::BadFile { name, kind, place },
        Err(AllocError) => OpenFault::NoMemory,
    }
}
