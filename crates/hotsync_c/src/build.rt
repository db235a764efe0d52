//! A database's file of its parts.

ghost use Rattle.std.specs.Prelude.{◌≡◌, ◌≤◌, ◌<◌, ◌==◌, ◌++◌, ◌∷◌, [], IfErr, IfOk, OnOk, bit_and, false, length, not, true};
ghost use Rattle.std.specs.List.{list_all};
ghost use Rattle.byteorder.specs.Endian.{big_bytes};
ghost use Rattle.pdb_values.specs.Blocks.{block_of};
ghost use Rattle.pdb_values.specs.Heads.{holds_resources};
ghost use Rattle.hotsync_c.specs.Answers.{Answers};
ghost use Rattle.hotsync_c.specs.Building.{IsBuilt, RefusesParts, are_parts, block_in, database_in, front_length, front_size, head_in, is_cut, is_entry, is_name, items_in, record_in, resource_in, with_entries};

use crate::fit::{are_parts, front_length, front_size};
use crate::parts::{ABSENT, HsEntry, HsHead};
use crate::refusal::Refusal;
use crate::room::put;
use pdb_files::write_database;
use pdb_values::{
    Bytes, Category, Content, Database, DbHead, DbName, FourCc, PalmDate, PushFault, Record,
    RecordId, Resource,
};
use std::alloc::{AllocError, Global};

// The bits of a record's attributes. The low four are the category.
const DELETED: u8 = 0x80;

const DIRTY: u8 = 0x40;

const BUSY: u8 = 0x20;

const SECRET: u8 = 0x10;

const CATEGORY: u8 = 0x0F;

/// Puts the file of a database into the room: of this head, with the name, the blocks and the bytes of the entries one
/// behind the other in `packed`, as `hs_head` and `hs_entries` give them. How many entries `head` says is not looked at.
///
/// The answer is how long the file is; or -2 where there is no database of these parts, or -1 where memory was refused.
#[unsafe(no_mangle)]
pub extern "C" fn hs_build(
    alloc: Global,
    head: &HsHead,
    entries: &[HsEntry],
    packed: &[u8],
    room: &mut [u8],
) -> i64
    ensures { Answers (IsBuilt head.now entries.now packed.now)
        (RefusesParts head.now entries.now packed.now) room.old room.new result }
{
    match built(alloc, head, entries, packed) {
        Ok(file) => put(&file, room),
        Err(refusal) => refusal.answer(),
    }
}

// The file of a database of these parts.
fn built(
    alloc: Global,
    head: &HsHead,
    entries: &[HsEntry],
    packed: &[u8],
) -> Result<Vec<u8>, Refusal>
    ensures file { IfOk result (λ file. IsBuilt head.now entries.now packed.now file.items) }
    ensures refused { IfErr result (RefusesParts head.now entries.now packed.now) }
{
    if !are_parts(head, entries, packed) {
        return Err(Refusal::Form);
    }
    let database = database_in(alloc, head, entries, packed)?;
    let file = write_database(alloc, &database)?;
    Ok(file)
}

// The database of these parts.
#[tactic(auto, unfolding(crate::specs::Building::database_in, crate::specs::Building::head_in))]
fn database_in(
    alloc: Global,
    head: &HsHead,
    entries: &[HsEntry],
    packed: &[u8],
) -> Result<Database, AllocError>
    requires { are_parts head.now entries.now packed.now ≡ true }
    ensures { IfOk result (λ database. database ≡ database_in head.now entries.now packed.now) }
{
    let name = head.name as usize;
    let app = block_in(alloc, head.app, packed.split_at(name).1)?;
    let behind_app = name + front_size(head.app);
    let sort = block_in(alloc, head.sort, packed.split_at(behind_app).1)?;
    let mut database = Database::new(alloc, head_in(head, packed.split_at(name).0));
    database.set_app(app).unwrap();
    database.set_sort(sort).unwrap();
    let rest = packed.split_at(front_length(head)).1;
    push_entries(alloc, &mut database, entries, rest)?;
    Ok(database)
}

// The head of a database under this name.
#[tactic(auto, unfolding(crate::specs::Building::head_in))]
fn head_in(head: &HsHead, name: &[u8]) -> DbHead
    requires attributes { head.now.attributes ≤ 65535 }
    requires version { head.now.version ≤ 65535 }
    requires name { is_name name.now ≡ true }
    ensures { result ≡ head_in head.now name.now }
{
    DbHead {
        name: DbName::new(name).unwrap(),
        attributes: head.attributes as u16,
        version: head.version as u16,
        created: PalmDate::of_seconds(head.created),
        modified: PalmDate::of_seconds(head.modified),
        backup: PalmDate::of_seconds(head.backup),
        modnum: head.modnum,
        seed: head.seed,
        kind: code_of(head.kind),
        creator: code_of(head.creator),
    }
}

// The type or the creator of a number.
fn code_of(number: u32) -> FourCc
    ensures { result.0 ≡ big_bytes 4 number }
{
    FourCc(number.to_be_bytes())
}

// The block of this length at the front of the bytes, if it is there.
fn block_in(alloc: Global, size: u32, packed: &[u8]) -> Result<Option<Vec<u8>>, AllocError>
    requires { front_size size ≤ length packed.now }
    ensures { IfOk result (λ block. block_of block ≡ block_in size packed.now) }
{
    if size == ABSENT {
        return Ok(None);
    }
    let block = Vec::from_slice(alloc, packed.split_at(size as usize).0)?;
    Ok(Some(block))
}

// Puts the entries into a database that has none yet.
fn push_entries(
    alloc: Global,
    database: &mut Database,
    entries: &[HsEntry],
    packed: &[u8],
) -> Result<(), AllocError>
    requires few { length entries.now ≤ 65535 }
    requires no_records { database.old.records ≡ [] }
    requires no_resources { database.old.resources ≡ [] }
    requires each { list_all (is_entry (holds_resources database.old.head.attributes)) entries.now
        ≡ true }
    requires cut { is_cut entries.now packed.now ≡ true }
    ensures { OnOk result (database.new
        ≡ with_entries database.old entries.now packed.now) }
{
    if database.head().holds_resources() {
        push_resources(alloc, database, entries, packed)
    } else {
        push_records(alloc, database, entries, packed)
    }
}

// Puts records into a database that has none yet.
#[tactic(auto, using(crate::proofs::CutLaws::cut_left, crate::proofs::CutLaws::all_left, crate::proofs::CutLaws::items_more))]
fn push_records(
    alloc: Global,
    database: &mut Database,
    entries: &[HsEntry],
    packed: &[u8],
) -> Result<(), AllocError>
    requires sort { holds_resources database.old.head.attributes ≡ false }
    requires few { length entries.now ≤ 65535 }
    requires no_records { database.old.records ≡ [] }
    requires each { list_all (is_entry false) entries.now ≡ true }
    requires cut { is_cut entries.now packed.now ≡ true }
    ensures { OnOk result (database.new ≡ record database.old {
      records = items_in record_in entries.now packed.now;
    }) }
{
    let mut rest = packed;
    for entry in entries {
        let (bytes, behind) = rest.split_at(entry.size as usize);
        add_record(database, record_in(alloc, entry, bytes)?)?;
        rest = behind;
    }
    Ok(())
}

// Puts resources into a database that has none yet.
#[tactic(auto, using(crate::proofs::CutLaws::cut_left, crate::proofs::CutLaws::all_left, crate::proofs::CutLaws::items_more))]
fn push_resources(
    alloc: Global,
    database: &mut Database,
    entries: &[HsEntry],
    packed: &[u8],
) -> Result<(), AllocError>
    requires sort { holds_resources database.old.head.attributes ≡ true }
    requires few { length entries.now ≤ 65535 }
    requires no_resources { database.old.resources ≡ [] }
    requires each { list_all (is_entry true) entries.now ≡ true }
    requires cut { is_cut entries.now packed.now ≡ true }
    ensures { OnOk result (database.new ≡ record database.old {
      resources = items_in resource_in entries.now packed.now;
    }) }
{
    let mut rest = packed;
    for entry in entries {
        let (bytes, behind) = rest.split_at(entry.size as usize);
        add_resource(database, resource_in(alloc, entry, bytes)?)?;
        rest = behind;
    }
    Ok(())
}

// The record of these bytes behind its entry.
#[tactic(auto, unfolding(crate::specs::Building::record_in))]
fn record_in(alloc: Global, entry: &HsEntry, bytes: &[u8]) -> Result<Record, AllocError>
    requires entry { is_entry false entry.now ≡ true }
    requires short { length bytes.now ≤ 65500 }
    ensures { IfOk result (λ item. item ≡ record_in entry.now bytes.now) }
{
    let bits = entry.attributes as u8;
    let category = Category::new(bits & CATEGORY).unwrap();
    let bytes = Vec::from_slice(alloc, bytes)?;
    let content = Content::new(category, has(bits, SECRET), bytes).unwrap();
    Ok(Record {
        id: RecordId::new(entry.id).unwrap(),
        deleted: has(bits, DELETED),
        dirty: has(bits, DIRTY),
        busy: has(bits, BUSY),
        content,
    })
}

// Whether a bit is set.
fn has(bits: u8, bit: u8) -> bool
    ensures { result ≡ not (bit_and bits bit == 0) }
{
    bits & bit != 0
}

// The resource of these bytes behind its entry.
#[tactic(auto, unfolding(crate::specs::Building::resource_in))]
fn resource_in(alloc: Global, entry: &HsEntry, bytes: &[u8]) -> Result<Resource, AllocError>
    requires entry { is_entry true entry.now ≡ true }
    requires short { length bytes.now ≤ 65500 }
    ensures resource { IfOk result (λ resource. resource ≡ resource_in entry.now bytes.now) }
    ensures short { IfOk result (λ resource. length resource.bytes ≤ 65500) }
{
    Ok(Resource {
        kind: code_of(entry.kind),
        id: entry.id as u16,
        bytes: Bytes::new(Vec::from_slice(alloc, bytes)?),
    })
}

// Puts a record behind the others, where there is room for one more.
fn add_record(database: &mut Database, item: Record) -> Result<(), AllocError>
    requires sort { holds_resources database.old.head.attributes ≡ false }
    requires room { length database.old.records < 65535 }
    ensures { OnOk result (
        database.new ≡ record database.old { records = database.old.records ++ item ∷ [] }) }
{
    match database.push_record(item) {
        Ok(()) => Ok(()),
        Err(PushFault::NoMemory(_)) => Err(AllocError),
        Err(PushFault::Full(_) | PushFault::TooLarge(_)) => unreachable!(),
    }
}

// Puts a short resource behind the others, where there is room for one more.
fn add_resource(database: &mut Database, resource: Resource) -> Result<(), AllocError>
    requires sort { holds_resources database.old.head.attributes ≡ true }
    requires short { length resource.bytes ≤ 65500 }
    requires room { length database.old.resources < 65535 }
    ensures { OnOk result (database.new
        ≡ record database.old { resources = database.old.resources ++ resource ∷ [] }) }
{
    match database.push_resource(resource) {
        Ok(()) => Ok(()),
        Err(PushFault::NoMemory(_)) => Err(AllocError),
        Err(PushFault::Full(_) | PushFault::TooLarge(_)) => unreachable!(),
    }
}
