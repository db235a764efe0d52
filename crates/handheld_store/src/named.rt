// The databases of a store by their names, and their files.
ghost use Rattle.std.specs.Prelude.{◌≡◌, ◌≤◌, IfOk, IfSome, IsErrOf, IsSomeAnd, None, OnErr, OnOk, Ok, Some, false, is_err, length, option_and_then, true};
ghost use Rattle.std.specs.FinMap as finmap;
ghost use Rattle.std.specs.Option.{option_copied, option_map};
ghost use Rattle.hs_folders.specs.Moments.{OneChange};
ghost use Rattle.pdb_files.specs.Files.{IsFileText, canonical};
ghost use Rattle.folder_files.specs.FileNames as file_names;
ghost use Rattle.pdb_values.specs.Databases.{DatabaseValue};
ghost use Rattle.pdb_values.specs.NamedDatabases as named;
ghost use Rattle.pdb_values.specs.NamedDatabases.{replaced, with_new, without_named};
ghost use Rattle.pdb_values.specs.declared.user.UserInfo.{UserInfo as UserValue};
ghost use Rattle.palm_device.specs.Blocks.{empty_database};
ghost use Rattle.palm_device.specs.Records.{place_of_id};
ghost use Rattle.handheld_files.specs.Openings.{AreKept, Stands};
ghost use Rattle.handheld_files.specs.Settled.{are_settled};
ghost use Rattle.handheld_store.specs.Files.{Follows};
ghost use Rattle.handheld_store.specs.Placed.{Takes, with_record};
ghost use Rattle.handheld_store.specs.Refusals.{create_fault, delete_fault, open_fault, refusal_of, stops};
ghost use Rattle.handheld_store.specs.Stores.{HasHead};

use crate::copies::{are_same, copy_of};
use crate::fault::StoreFault;
use crate::files::{file_of, remove_database_file, write_database_file, write_file};
use crate::placed::write_record;
use hs_folders::Folder;
use palm_device::has_bit;
use pdb_values::{
    Content, Database, DbHead, DbName, RecordId, database_of, insert_database, place_of,
    remove_database,
};
use std::alloc::Global;

// The attribute of a database that may only be read.
const READ_ONLY: u16 = 0x0002;

// How many databases a handheld can have.
const MOST_DATABASES: usize = 200;

/// Whether a database of this name may be made.
pub fn may_create(databases: &[Database], name: &DbName) -> Result<(), StoreFault>
    ensures refusal { refusal_of result ≡ create_fault name.now databases.now }
    ensures goes_on { stops result ≡ false }
    ensures none { OnOk result (named.database_of name.now databases.now ≡ None) }
    ensures room { OnOk result (length databases.now ≤ 199) }
{
    if database_of(databases, name.as_bytes()).is_some() {
        return Err(StoreFault::Exists);
    }
    if databases.len() >= MOST_DATABASES {
        return Err(StoreFault::Limit);
    }
    Ok(())
}

/// Lends the database of a name: the same one once more, which takes its place where it is kept.
pub fn lend(
    alloc: Global,
    databases: &[Database],
    name: &DbName,
    writes: bool,
) -> Result<Database, StoreFault>
    requires { AreKept databases.now }
    ensures refusal { refusal_of result
        ≡ open_fault writes (named.database_of name.now databases.now) }
    ensures no_fault { ¬ IsErrOf result StoreFault.KeeperFault }
    ensures database { IfOk result (λ database.
        named.database_of name.now databases.now ≡ Some database) }
    ensures settled { IfOk result (λ database. are_settled database.records ≡ true) }
{
    let Some(database) = database_of(databases, name.as_bytes()) else {
        return Err(StoreFault::NotFound);
    };
    if writes && has_bit(READ_ONLY, database.head().attributes) {
        return Err(StoreFault::ReadOnly);
    }
    let copy = copy_of(alloc, database)?;
    Ok(copy)
}

/// Puts an empty database of this head among the others, and writes its file.
pub fn add_database<F: Folder>(
    alloc: Global,
    folder: &mut F,
    databases: &mut Vec<Database>,
    head: DbHead,
) -> Result<(), StoreFault>
    requires kept { AreKept databases.old.items }
    requires none { named.database_of head.name databases.old.items ≡ None }
    requires room { length databases.old.items ≤ 199 }
    ensures added { OnOk result (
        databases.new.items ≡ with_new (empty_database head) databases.old.items) }
    ensures stays { OnErr result (databases.new.items ≡ databases.old.items) }
    ensures kept { AreKept databases.new.items }
    ensures follows { OnOk result (Follows
        (named.database_of head.name databases.old.items)
        (named.database_of head.name databases.new.items)
        (F.contents folder.old) (F.contents folder.new)) }
    ensures stands { (user : UserValue) → Stands (F.contents folder.old) databases.old.items user
        → OnOk result (Stands (F.contents folder.new) databases.new.items user) }
    ensures change { OneChange F.contents F.moments F.paths F.faults folder.old folder.new
        result (IsErrOf result StoreFault.KeeperFault) }
    ensures stops { stops result ≡ is_err result }
{
    let name = head.name.copy();
    let database = Database::new(alloc, head);
    let file = file_of(alloc, &database)?;
    insert_database(databases, database)?;
    match write_file(folder, file.name.as_str(), &file.bytes) {
        Ok(()) => Ok(()),
        Err(fault) => {
            remove_database(databases, name.as_bytes());
            Err(fault)
        }
    }
}

/// Takes the database of a name out of the others, and removes its file.
pub fn take_database<F: Folder>(
    alloc: Global,
    folder: &mut F,
    databases: &mut Vec<Database>,
    name: &DbName,
) -> Result<(), StoreFault>
    requires { AreKept databases.old.items }
    ensures refusal { refusal_of result ≡ delete_fault name.now databases.old.items }
    ensures taken { OnOk result (databases.new.items ≡ without_named name.now databases.old.items) }
    ensures stays { OnErr result (databases.new.items ≡ databases.old.items) }
    ensures none { named.database_of name.now databases.old.items ≡ None → folder.new ≡ folder.old }
    ensures kept { AreKept databases.new.items }
    ensures follows { OnOk result (Follows
        (named.database_of name.now databases.old.items)
        (named.database_of name.now databases.new.items)
        (F.contents folder.old) (F.contents folder.new)) }
    ensures stands { (user : UserValue) → Stands (F.contents folder.old) databases.old.items user
        → OnOk result (Stands (F.contents folder.new) databases.new.items user) }
    ensures change { OneChange F.contents F.moments F.paths F.faults folder.old folder.new
        result (IsErrOf result StoreFault.KeeperFault) }
{
    let Some(database) = database_of(databases, name.as_bytes()) else {
        return Err(StoreFault::NotFound);
    };
    remove_database_file(alloc, folder, database.head())?;
    remove_database(databases, name.as_bytes());
    Ok(())
}

/// Puts a database in the place of the one of its name, and writes its file where it is another one.
pub fn put_database<F: Folder>(
    alloc: Global,
    folder: &mut F,
    databases: &mut Vec<Database>,
    database: Database,
) -> Result<(), StoreFault>
    requires kept { AreKept databases.old.items }
    requires settled { are_settled database.records ≡ true }
    ensures put { OnOk result (databases.new.items ≡ replaced database databases.old.items) }
    ensures stays { OnErr result (databases.new.items ≡ databases.old.items) }
    ensures same { named.database_of database.head.name databases.old.items ≡ Some database
        → (result ≡ Ok tt) × (folder.new ≡ folder.old) × (databases.new ≡ databases.old) }
    ensures kept { AreKept databases.new.items }
    ensures follows { OnOk result (Follows
        (named.database_of database.head.name databases.old.items)
        (named.database_of database.head.name databases.new.items)
        (F.contents folder.old) (F.contents folder.new)) }
    ensures stands { (user : UserValue)
        → HasHead database.head databases.old.items → Stands (F.contents folder.old) databases.old.items user
        → OnOk result (Stands (F.contents folder.new) databases.new.items user) }
    ensures change { OneChange F.contents F.moments F.paths F.faults folder.old folder.new
        result (IsErrOf result StoreFault.KeeperFault) }
    ensures stops { stops result ≡ is_err result }
{
    let Some(place) = place_of(databases, database.head().name.as_bytes()) else {
        return Ok(());
    };
    if are_same(&databases[place], &database) {
        return Ok(());
    }
    match replace_database(alloc, folder, &mut databases[place], database) {
        Ok(()) => Ok(()),
        Err(fault) => Err(fault),
    }
}

// Puts a database in the place of another one, and writes its file.
fn replace_database<F: Folder>(
    alloc: Global,
    folder: &mut F,
    held: &mut Database,
    database: Database,
) -> Result<(), StoreFault>
    ensures put { OnOk result (held.new ≡ database) }
    ensures stays { OnErr result (held.new ≡ held.old) }
    ensures written { OnOk result (F.contents folder.new ≡ option_map (λ files.
        finmap.insert files (file_names.database_file database.head) (canonical database))
        (F.contents folder.old)) }
    ensures text { OnOk result (IsFileText database (canonical database)) }
    ensures change { OneChange F.contents F.moments F.paths F.faults folder.old folder.new
        result (IsErrOf result StoreFault.KeeperFault) }
    ensures stops { stops result ≡ is_err result }
{
    write_database_file(alloc, folder, &database)?;
    *held = database;
    Ok(())
}

/// Writes a record of the database of a name, in its place or behind the others, and the database's
/// file. Nothing is written where that makes no other database.
pub fn put_record<F: Folder>(
    alloc: Global,
    folder: &mut F,
    databases: &mut Vec<Database>,
    name: &DbName,
    place: Option<usize>,
    id: RecordId,
    content: Content,
) -> Result<(), StoreFault>
    requires kept { AreKept databases.old.items }
    requires takes { IsSomeAnd (named.database_of name.now databases.old.items) (Takes id) }
    requires place { place ≡ option_and_then (λ database. place_of_id id database.records)
        (named.database_of name.now databases.old.items) }
    ensures put { OnOk result (IfSome (named.database_of name.now databases.old.items)
        (λ was. databases.new.items ≡ replaced (with_record id content was) databases.old.items)) }
    ensures stays { OnErr result (databases.new.items ≡ databases.old.items) }
    ensures kept { AreKept databases.new.items }
    ensures follows { OnOk result (Follows
        (named.database_of name.now databases.old.items)
        (named.database_of name.now databases.new.items)
        (F.contents folder.old) (F.contents folder.new)) }
    ensures stands { (user : UserValue) → Stands (F.contents folder.old) databases.old.items user
        → OnOk result (Stands (F.contents folder.new) databases.new.items user) }
    ensures change { OneChange F.contents F.moments F.paths F.faults folder.old folder.new
        result (IsErrOf result StoreFault.KeeperFault) }
    ensures stops { stops result ≡ is_err result }
{
    let Some(at) = place_of(databases, name.as_bytes()) else {
        return Ok(());
    };
    match write_record(alloc, folder, &mut databases[at], place, id, content) {
        Ok(()) => Ok(()),
        Err(fault) => Err(fault),
    }
}
