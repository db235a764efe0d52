//! A database's file in its parts: the head, the blocks, and one entry at a time.

ghost use Rattle.std.specs.Prelude.{◌≡◌, ◌++◌, ◌≤◌, IfErr, IfOk, MatchResult, None, OnOk, Some, length};
ghost use Rattle.std.specs.Option.{option_copied};
ghost use Rattle.pdb_values.specs.Blocks.{block_length};
ghost use Rattle.pdb_files.specs.Files.{IsFileText};
ghost use Rattle.hotsync_c.specs.Answers.{Answers};
ghost use Rattle.hotsync_c.specs.Files.{RefusesFile};
ghost use Rattle.hotsync_c.specs.Parts.{IsEntryOf, IsHeadOf, RefusesEntry, block_bytes, block_size, bytes_at, code_number, entry_at, front_of, head_of, record_entry, resource_entry};

use crate::parts::{ABSENT, HsEntry, HsHead};
use crate::refusal::Refusal;
use crate::room::put;
use byteorder::{BigEndian, ByteOrder};
use pdb_files::{attributes_of, entry_count, read_database};
use pdb_values::{Database, FourCc, Record, Resource};
use std::alloc::{AllocError, Global};

/// Says what the header of a database's file says, and puts the name, the app block and the sort block into the room, one
/// behind the other.
///
/// The answer is how long these are together; or -2 for bytes that are no database's file, or -1 where memory was refused:
/// then `head` is as it was.
#[unsafe(no_mangle)]
pub extern "C" fn hs_head(alloc: Global, file: &[u8], head: &mut HsHead, room: &mut [u8]) -> i64
    ensures { Answers (IsHeadOf file.now head.new)
        (λ refusal. RefusesFile file.now refusal × (head.new ≡ head.old))
        room.old room.new result }
{
    let database = match read_file(alloc, file) {
        Ok(database) => database,
        Err(refusal) => return refusal.answer(),
    };
    match front_of(alloc, &database) {
        Ok(front) => {
            *head = head_of(&database);
            put(&front, room)
        }
        Err(AllocError) => Refusal::Memory.answer(),
    }
}

/// Says what stands in front of one entry of a file's database, and puts its bytes into the room: of the record, or of the
/// resource, of this index from 0 on.
///
/// The answer is how long they are; or -2 for bytes that are no database's file, -3 where it has no such entry, or -1 where
/// memory was refused: then `entry` is as it was.
#[tactic(auto, using(crate::proofs::PartLaws::lacks_entry))]
#[unsafe(no_mangle)]
pub extern "C" fn hs_entry(
    alloc: Global,
    file: &[u8],
    index: u32,
    entry: &mut HsEntry,
    room: &mut [u8],
) -> i64
    ensures { Answers (IsEntryOf file.now index entry.new)
        (λ refusal. RefusesEntry file.now index refusal × (entry.new ≡ entry.old))
        room.old room.new result }
{
    let database = match read_file(alloc, file) {
        Ok(database) => database,
        Err(refusal) => return refusal.answer(),
    };
    let found = match found_at(&database, index as usize) {
        Ok(found) => found,
        Err(refusal) => return refusal.answer(),
    };
    let bytes = bytes_at(&database, index as usize).unwrap();
    *entry = found;
    put(bytes, room)
}

// What stands in front of an entry, or that there is none.
fn found_at(database: &Database, index: usize) -> Result<HsEntry, Refusal>
    ensures { MatchResult result (λ entry. entry_at database.now index ≡ Some entry)
        (λ refusal. (refusal ≡ Refusal.Absent) × (entry_at database.now index ≡ None)) }
{
    match entry_at(database, index) {
        Some(found) => Ok(found),
        None => Err(Refusal::Absent),
    }
}

// The database of a file.
pub(crate) fn read_file(alloc: Global, file: &[u8]) -> Result<Database, Refusal>
    ensures read { IfOk result (λ database. IsFileText database file.now) }
    ensures refused { IfErr result (RefusesFile file.now) }
{
    match read_database(alloc, file) {
        Ok(database) => Ok(database),
        Err(fault) => Err(Refusal::of(fault)),
    }
}

// What the header of a database says.
#[tactic(auto, unfolding(crate::specs::Parts::head_of))]
fn head_of(database: &Database) -> HsHead
    ensures { result ≡ head_of database.now }
{
    let head = database.head();
    HsHead {
        attributes: u32::from(head.attributes),
        version: u32::from(head.version),
        created: head.created.seconds(),
        modified: head.modified.seconds(),
        backup: head.backup.seconds(),
        modnum: head.modnum,
        seed: head.seed,
        kind: code_number(&head.kind),
        creator: code_number(&head.creator),
        entries: entry_count(database) as u32,
        name: head.name.as_bytes().len() as u32,
        app: block_size(database.app()),
        sort: block_size(database.sort()),
    }
}

// The name, the app block and the sort block of a database, one behind the other.
fn front_of(alloc: Global, database: &Database) -> Result<Vec<u8>, AllocError>
    ensures { IfOk result (λ bytes. bytes.items ≡ front_of database.now) }
{
    let mut bytes = Vec::from_slice(alloc, database.head().name.as_bytes())?;
    push_block(&mut bytes, database.app())?;
    push_block(&mut bytes, database.sort())?;
    Ok(bytes)
}

// Appends a block, if it is there.
fn push_block(out: &mut Vec<u8>, block: Option<&[u8]>) -> Result<(), AllocError>
    ensures { OnOk result (out.new.items ≡ out.old.items ++ block_bytes (option_copied block.entry)) }
{
    match block {
        Some(block) => out.extend_from_slice(block),
        None => Ok(()),
    }
}

// How long a block is.
fn block_size(block: Option<&[u8]>) -> u32
    requires { block_length (option_copied block) ≤ 65500 }
    ensures { result ≡ block_size (option_copied block.entry) }
{
    match block {
        Some(block) => block.len() as u32,
        None => ABSENT,
    }
}

// A type or a creator as a number.
fn code_number(code: &FourCc) -> u32
    ensures { result ≡ code_number code.now }
{
    BigEndian::read_u32(&code.0)
}

// What stands in front of an entry.
fn entry_at(database: &Database, index: usize) -> Option<HsEntry>
    ensures { result ≡ entry_at database.now index }
{
    if database.head().holds_resources() {
        match database.resources().get(index) {
            Some(resource) => Some(resource_entry(resource)),
            None => None,
        }
    } else {
        match database.records().get(index) {
            Some(item) => Some(record_entry(item)),
            None => None,
        }
    }
}

// The bytes of an entry.
fn bytes_at(database: &Database, index: usize) -> Option<&[u8]>
    ensures { option_copied result ≡ bytes_at database.now index }
{
    if database.head().holds_resources() {
        match database.resources().get(index) {
            Some(resource) => Some(resource.bytes.as_slice()),
            None => None,
        }
    } else {
        match database.records().get(index) {
            Some(item) => Some(item.content.bytes()),
            None => None,
        }
    }
}

// What stands in front of a record.
pub(crate) fn record_entry(item: &Record) -> HsEntry
    ensures { result ≡ record_entry item.now }
{
    HsEntry {
        kind: 0,
        id: item.id.number(),
        attributes: u32::from(attributes_of(item)),
        size: item.content.bytes().len() as u32,
    }
}

// What stands in front of a resource.
pub(crate) fn resource_entry(resource: &Resource) -> HsEntry
    requires { length resource.now.bytes ≤ 65500 }
    ensures { result ≡ resource_entry resource.now }
{
    HsEntry {
        kind: code_number(&resource.kind),
        id: u32::from(resource.id),
        attributes: 0,
        size: resource.bytes.as_slice().len() as u32,
    }
}
