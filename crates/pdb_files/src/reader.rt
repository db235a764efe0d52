//! Reading a database file.

ghost use Rattle.std.specs.Prelude.{◌≡◌, ◌+◌, ◌*◌, ◌≤◌, ◌<◌, ◌++◌, ◌∷◌, [], true, false, None, IfOk, IsOkUnless, MatchResult, OnOk, drop, length};
ghost use Rattle.pdb_values.specs.Databases.{DatabaseValue};
ghost use Rattle.pdb_values.specs.Heads.{holds_resources};
ghost use Rattle.pdb_files.specs.Blocks.{AreInOrder, AreShort, blocks_in};
ghost use Rattle.pdb_files.specs.Entries.{entry_length};
ghost use Rattle.pdb_files.specs.Faults.{Refuses, block_begins, file_fault};
ghost use Rattle.pdb_files.specs.Files.{IsFileText};
ghost use Rattle.pdb_files.specs.Reading.{Gives, database_in, header_in, records_in, resources_in, with_entries};

use crate::blocks::{behind_front, block, front_block};
use crate::entry::{Entry, entry_length, read_resource};
use crate::fault::FileFault;
use crate::front::Front;
use crate::header::{HEADER_LENGTH, Header};
use pdb_values::{Database, PushFault, Record, Resource};
use std::alloc::Global;

/// The database of a file, or the first rule of the format that its bytes break.
pub fn read_database(alloc: Global, bytes: &[u8]) -> Result<Database, FileFault>
    // What is read has all of the bytes as its text.
    ensures found { IfOk result (λ database. IsFileText database bytes.now) }
    // What has all of the bytes as its text is read, unless memory runs out.
    ensures only { (database : DatabaseValue) → IsFileText database bytes.now → MatchResult result
        (λ found. found ≡ database) (λ fault. fault ≡ FileFault.NoMemory) }
    // A refusal is the first rule that the bytes break, and where they break none it is of memory.
    ensures fault { Refuses result (file_fault bytes.now) }
{
    read(alloc, bytes)
}

// The same, by what a reading gives.
fn read(alloc: Global, bytes: &[u8]) -> Result<Database, FileFault>
    ensures { Gives result (file_fault bytes.now) (database_in bytes.now) }
{
    let Front { header, begins } = Front::read(alloc, bytes)?;
    read_blocks(alloc, header, bytes, &begins)
}

// The database of a file that breaks no rule.
#[tactic(auto, unfolding(crate::specs::Reading::database_of))]
fn read_blocks(
    alloc: Global,
    header: Header,
    bytes: &[u8],
    begins: &[u32],
) -> Result<Database, FileFault>
    requires none { file_fault bytes.now ≡ None }
    requires header { header ≡ header_in bytes.now }
    requires begins { begins.now ≡ block_begins bytes.now }
    ensures database { IfOk result (λ database. database ≡ database_in bytes.now) }
    ensures memory { IsOkUnless result FileFault.NoMemory }
{
    let behind_app = behind_front(header.app, begins);
    let data = behind_front(header.sort, behind_app);
    let app = front_block(alloc, header.app, bytes, begins)?;
    let sort = front_block(alloc, header.sort, bytes, behind_app)?;
    let mut database = Database::new(alloc, header.head);
    database.set_app(app).unwrap();
    database.set_sort(sort).unwrap();
    read_entries(alloc, &mut database, bytes, data)?;
    Ok(database)
}

// Puts the entries into a database that has none yet.
fn read_entries(
    alloc: Global,
    database: &mut Database,
    bytes: &[u8],
    begins: &[u32],
) -> Result<(), FileFault>
    requires long { 78 + entry_length (holds_resources database.old.head.attributes)
        * length begins.now ≤ length bytes.now }
    requires few { length begins.now ≤ 65535 }
    requires no_records { database.old.records ≡ [] }
    requires no_resources { database.old.resources ≡ [] }
    requires order { AreInOrder 0 (length bytes.now) begins.now }
    requires short { AreShort (blocks_in begins.now bytes.now) }
    ensures entries { OnOk result (database.new ≡ with_entries database.old
        (drop 78 bytes.now) (blocks_in begins.now bytes.now)) }
    ensures memory { IsOkUnless result FileFault.NoMemory }
{
    if database.head().holds_resources() {
        read_resources(alloc, database, bytes, begins)
    } else {
        read_records(alloc, database, bytes, begins)
    }
}

// Puts the records of a file into a database that has none yet.
fn read_records(
    alloc: Global,
    database: &mut Database,
    bytes: &[u8],
    begins: &[u32],
) -> Result<(), FileFault>
    requires sort { holds_resources database.old.head.attributes ≡ false }
    requires long { 78 + 8 * length begins.now ≤ length bytes.now }
    requires few { length begins.now ≤ 65535 }
    requires no_records { database.old.records ≡ [] }
    requires order { AreInOrder 0 (length bytes.now) begins.now }
    requires short { AreShort (blocks_in begins.now bytes.now) }
    ensures records { OnOk result (database.new
        ≡ record database.old {
          records = records_in (drop 78 bytes.now) (blocks_in begins.now bytes.now);
        }) }
    ensures memory { IsOkUnless result FileFault.NoMemory }
{
    let mut entries = bytes.split_at(HEADER_LENGTH).1;
    for place in 0..begins.len() {
        let item = Entry::read(entries).record(alloc, block(bytes, begins, place))?;
        add_record(database, item)?;
        entries = entries.split_at(entry_length(false)).1;
    }
    Ok(())
}

// Puts the resources of a file into a database that has none yet.
fn read_resources(
    alloc: Global,
    database: &mut Database,
    bytes: &[u8],
    begins: &[u32],
) -> Result<(), FileFault>
    requires sort { holds_resources database.old.head.attributes ≡ true }
    requires long { 78 + 10 * length begins.now ≤ length bytes.now }
    requires few { length begins.now ≤ 65535 }
    requires no_resources { database.old.resources ≡ [] }
    requires order { AreInOrder 0 (length bytes.now) begins.now }
    requires short { AreShort (blocks_in begins.now bytes.now) }
    ensures resources { OnOk result (database.new
        ≡ record database.old {
          resources = resources_in (drop 78 bytes.now) (blocks_in begins.now bytes.now);
        }) }
    ensures memory { IsOkUnless result FileFault.NoMemory }
{
    let mut entries = bytes.split_at(HEADER_LENGTH).1;
    for place in 0..begins.len() {
        let resource = read_resource(alloc, entries, block(bytes, begins, place))?;
        add_resource(database, resource)?;
        entries = entries.split_at(entry_length(true)).1;
    }
    Ok(())
}

// Puts a record behind the others, where there is room for one more.
fn add_record(database: &mut Database, item: Record) -> Result<(), FileFault>
    requires sort { holds_resources database.old.head.attributes ≡ false }
    requires room { length database.old.records < 65535 }
    ensures added { OnOk result (
        database.new ≡ record database.old { records = database.old.records ++ item ∷ [] }) }
    ensures memory { IsOkUnless result FileFault.NoMemory }
{
    match database.push_record(item) {
        Ok(()) => Ok(()),
        Err(PushFault::NoMemory(_)) => Err(FileFault::NoMemory),
        Err(PushFault::Full(_) | PushFault::TooLarge(_)) => unreachable!(),
    }
}

// Puts a short resource behind the others, where there is room for one more.
fn add_resource(database: &mut Database, resource: Resource) -> Result<(), FileFault>
    requires sort { holds_resources database.old.head.attributes ≡ true }
    requires short { length resource.bytes ≤ 65500 }
    requires room { length database.old.resources < 65535 }
    ensures added { OnOk result (database.new
        ≡ record database.old { resources = database.old.resources ++ resource ∷ [] }) }
    ensures memory { IsOkUnless result FileFault.NoMemory }
{
    match database.push_resource(resource) {
        Ok(()) => Ok(()),
        Err(PushFault::NoMemory(_)) => Err(FileFault::NoMemory),
        Err(PushFault::Full(_) | PushFault::TooLarge(_)) => unreachable!(),
    }
}
