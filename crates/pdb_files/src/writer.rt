//! Writing a database file.

ghost use Rattle.std.specs.Prelude.{◌≡◌, ◌+◌, ◌*◌, ◌^◌, ◌<◌, ◌≤◌, ◌++◌, All, IfOk, OnOk, length};
ghost use Rattle.std.specs.List.{AllByRecursion, concat};
ghost use Rattle.std.specs.Option.{option_copied};
ghost use Rattle.pdb_values.specs.Blocks.{block_length};
ghost use Rattle.pdb_values.specs.Databases.{IsDatabase, IsShortResource};
ghost use Rattle.pdb_files.specs.Blocks.{AreShort, begins_from, block_list, block_offset};
ghost use Rattle.pdb_files.specs.Entries.{record_data, record_entries, resource_data, resource_entries};
ghost use Rattle.pdb_files.specs.Files.{FitsRecord, FitsResource, IsFileText, canonical, data_of, entries_text, entry_count};

use crate::entry::{entry_length, push_record_entry, push_resource_entry};
use crate::header::{HEADER_LENGTH, push_header};
use pdb_values::{Database, Record, Resource};
use std::alloc::{AllocError, Global};

// What is written between the entries and the first block.
const FILLER: [u8; 2] = [0, 0];

/// The canonical bytes of a database: the name filled with zeros, the entries, two zero bytes, and the blocks without
/// gaps. An absent block has offset 0, an empty one its place. They are a text of the database, so that it is read
/// from them.
pub fn write_database(alloc: Global, database: &Database) -> Result<Vec<u8>, AllocError>
    ensures canonical { IfOk result (λ bytes. bytes.items ≡ canonical database.now) }
    ensures text { IfOk result (λ bytes. IsFileText database.now bytes.items) }
{
    let head = database.head();
    let count = entry_count(database);
    let app_begin = HEADER_LENGTH + entry_length(head.holds_resources()) * count + FILLER.len();
    let sort_begin = app_begin + block_length(database.app());
    let data_begin = sort_begin + block_length(database.sort());
    let app = block_offset(database.app(), app_begin as u32);
    let sort = block_offset(database.sort(), sort_begin as u32);
    let mut out = Vec::with_capacity(alloc, data_begin)?;
    push_header(&mut out, head, app, sort, count as u16)?;
    let data_end = push_entries(&mut out, data_begin, database)?;
    out.extend_from_slice(&FILLER)?;
    push_block(&mut out, database.app())?;
    push_block(&mut out, database.sort())?;
    out.reserve_exact(data_end - data_begin)?;
    push_data(&mut out, database)?;
    Ok(out)
}

/// How many entries a database has: resources, where its head says so, and else records.
pub fn entry_count(database: &Database) -> usize
    ensures count { result ≡ entry_count database.now }
    ensures bound { result ≤ 65535 }
{
    if database.head().holds_resources() {
        database.resources().len()
    } else {
        database.records().len()
    }
}

// The length of a block, 0 where it is absent.
fn block_length(block: Option<&[u8]>) -> usize
    ensures { result ≡ block_length (option_copied block.entry) }
{
    match block {
        Some(block) => block.len(),
        None => 0,
    }
}

// What the header says of a block at this place.
fn block_offset(block: Option<&[u8]>, place: u32) -> u32
    ensures { result ≡ block_offset (option_copied block.entry) place }
{
    match block {
        Some(_) => place,
        None => 0,
    }
}

// Writes the entries of a database, the data of whose first entry begins at a place of the file. Gives where the data of
// the last one ends.
fn push_entries(out: &mut Vec<u8>, begin: usize, database: &Database) -> Result<usize, AllocError>
    requires { begin + 65500 * entry_count database.now < 2 ^ 32 }
    ensures text { OnOk result (out.new.items ≡ out.old.items
        ++ entries_text (begins_from begin (data_of database.now)) database.now) }
    ensures records { OnOk result (AllByRecursion FitsRecord database.now.records) }
    ensures resources { OnOk result (AllByRecursion FitsResource database.now.resources) }
    ensures short { OnOk result (AreShort (data_of database.now)) }
    ensures end { IfOk result (λ end. end ≡ begin + length (concat (data_of database.now))) }
{
    if database.head().holds_resources() {
        push_resource_entries(out, begin, database.resources())
    } else {
        push_record_entries(out, begin, database.records())
    }
}

// Writes the entries of records, the data of whose first begins at a place of the file. Gives where the data of the last
// one ends.
fn push_record_entries(
    out: &mut Vec<u8>,
    begin: usize,
    records: &[Record],
) -> Result<usize, AllocError>
    requires { begin + 65500 * length records.now < 2 ^ 32 }
    ensures text { OnOk result (out.new.items ≡ out.old.items
        ++ record_entries (begins_from begin (record_data records.now)) records.now) }
    ensures fits { OnOk result (AllByRecursion FitsRecord records.now) }
    ensures short { OnOk result (AreShort (record_data records.now)) }
    ensures end { IfOk result (λ end. end ≡ begin + length (concat (record_data records.now))) }
{
    let mut begin = begin;
    for item in records {
        push_record_entry(out, begin as u32, item)?;
        begin += item.content.bytes().len();
    }
    Ok(begin)
}

// Writes the entries of resources, the data of whose first begins at a place of the file. Gives where the data of the last
// one ends.
fn push_resource_entries(
    out: &mut Vec<u8>,
    begin: usize,
    resources: &[Resource],
) -> Result<usize, AllocError>
    requires place { begin + 65500 * length resources.now < 2 ^ 32 }
    requires few_bytes { All IsShortResource resources.now }
    ensures text { OnOk result (out.new.items ≡ out.old.items
        ++ resource_entries (begins_from begin (resource_data resources.now)) resources.now) }
    ensures fits { OnOk result (AllByRecursion FitsResource resources.now) }
    ensures short { OnOk result (AreShort (resource_data resources.now)) }
    ensures end { IfOk result (λ end. end ≡ begin + length (concat (resource_data resources.now))) }
{
    let mut begin = begin;
    for resource in resources {
        push_resource_entry(out, begin as u32, resource)?;
        begin += resource.bytes.as_slice().len();
    }
    Ok(begin)
}

// Writes a block, if it is there.
fn push_block(out: &mut Vec<u8>, block: Option<&[u8]>) -> Result<(), AllocError>
    ensures { OnOk result (
        out.new.items ≡ out.old.items ++ concat (block_list (option_copied block.entry))) }
{
    match block {
        Some(block) => out.extend_from_slice(block),
        None => Ok(()),
    }
}

// Writes the data of the entries of a database, one behind the other.
fn push_data(out: &mut Vec<u8>, database: &Database) -> Result<(), AllocError>
    ensures { OnOk result (out.new.items ≡ out.old.items ++ concat (data_of database.now)) }
{
    if database.head().holds_resources() {
        push_resource_data(out, database.resources())
    } else {
        push_record_data(out, database.records())
    }
}

// Writes the data of records.
fn push_record_data(out: &mut Vec<u8>, records: &[Record]) -> Result<(), AllocError>
    ensures { OnOk result (out.new.items ≡ out.old.items ++ concat (record_data records.now)) }
{
    for item in records {
        out.extend_from_slice(item.content.bytes())?;
    }
    Ok(())
}

// Writes the data of resources.
fn push_resource_data(out: &mut Vec<u8>, resources: &[Resource]) -> Result<(), AllocError>
    ensures { OnOk result (out.new.items ≡ out.old.items ++ concat (resource_data resources.now)) }
{
    for resource in resources {
        out.extend_from_slice(resource.bytes.as_slice())?;
    }
    Ok(())
}
