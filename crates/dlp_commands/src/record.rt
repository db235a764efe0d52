// Records, as requests read and write them.
ghost use Rattle.std.specs.Prelude.{◌≡◌, ◌<◌, ◌≤◌, IfOk, OnOk, drop, length, take, true};
ghost use Rattle.pdb_values.specs.Bounds.{most_entries};
ghost use Rattle.dlp_replies.specs.Views.{reply_value};
ghost use Rattle.dlp_replies.specs.Writables.{IsWritable};
ghost use Rattle.palm_device.specs.Records as records;
ghost use Rattle.palm_device.specs.Soundness.{ids_of};
ghost use Rattle.dlp_commands.specs.Answers.{Finds};
ghost use Rattle.dlp_commands.specs.Readings as table;
ghost use Rattle.dlp_commands.specs.Readings.{next_in};
ghost use Rattle.dlp_commands.specs.Writings as writings;

use crate::block::part_of;
use crate::holds::Holds;
use crate::refusal::Refusal;
use dlp_replies::Reply;
use palm_device::{next_changed, place_of_id};
use pdb_values::{Category, Database, Record, RecordId};
use std::alloc::{AllocError, Global};

// A bit where a test holds.
fn bit_if(bit: u8, holds: bool) -> u8
    ensures { result ≡ table.bit_if bit holds }
{
    if holds { bit } else { 0 }
}

// The attributes of a record on the wire.
fn wire_attributes(item: &Record) -> u8
    ensures { result ≡ table.wire_attributes item.now }
{
    let archived = item.deleted && !item.content.bytes().is_empty();
    bit_if(0x80, item.deleted)
        + bit_if(0x40, item.dirty)
        + bit_if(0x20, item.busy)
        + bit_if(0x10, item.content.secret())
        + bit_if(0x08, archived)
}

// A record's bytes from an offset on, at most so many.
#[tactic(auto, using(crate::proofs::Fits::record_fits))]
pub(crate) fn record_part(
    database: &Database,
    index: usize,
    offset: u16,
    count: u16,
) -> Result<Reply<'_>, Refusal>
    ensures part { Finds reply_value result (table.record_part database.now index offset count) }
    ensures writable { IfOk result (λ reply. IsWritable (reply_value reply)) }
{
    let Some(item) = database.records().get(index) else {
        return Err(Refusal::NotFound);
    };
    let bytes = item.content.bytes();
    if offset as usize > bytes.len() {
        return Err(Refusal::Parameter);
    }
    Ok(Reply::ReadRecord {
        id: item.id,
        index: index as u16,
        size: bytes.len() as u16,
        attributes: wire_attributes(item),
        category: item.content.category(),
        bytes: part_of(bytes, offset as usize, count as usize),
    })
}

// The reply with a whole record.
#[tactic(auto, using(crate::proofs::Fits::next_fits))]
fn whole(item: &Record, place: u16) -> Reply<'_>
    ensures reply { reply_value result ≡ table.whole place item.now }
    ensures writable { IsWritable (reply_value result) }
{
    let bytes = item.content.bytes();
    Reply::ReadNextModifiedRec {
        id: item.id,
        index: place,
        size: bytes.len() as u16,
        attributes: wire_attributes(item),
        category: item.content.category(),
        bytes,
    }
}

/// The first changed record of a database of records from a record index on, whole, with its place.
pub fn next_record(database: &Database, next: u16) -> Result<(u16, Reply<'_>), Refusal>
    ensures found { Finds (λ found. (found.0, reply_value found.1)) result
        (next_in next database.now) }
    ensures within { IfOk result (λ found. found.0 < most_entries) }
    ensures writable { IfOk result (λ found. IsWritable (reply_value found.1)) }
{
    if !Holds::Records.fits(database) {
        return Err(Refusal::NotSupported);
    }
    let items = database.records();
    let Some(place) = next_changed(items, next as usize) else {
        return Err(Refusal::NotFound);
    };
    let Some(item) = items.get(place) else {
        return Err(Refusal::NotFound);
    };
    Ok((place as u16, whole(item, place as u16)))
}

// Whether an id asks for a new record.
fn is_new(database: &Database, id: u32) -> bool
    ensures { result ≡ records.is_new id database.now.records }
{
    id == 0 || place_of_id(database.records(), id).is_none()
}

// The id and the category of a record that may be written.
pub(crate) fn may_write(
    database: &Database,
    id: u32,
    category: u8,
) -> Result<(RecordId, Category), Refusal>
    ensures allowed { Finds (λ _. tt) result (writings.may_write id category database.now.records) }
    ensures asked { IfOk result (λ asked. asked ≡ (id, category)) }
    ensures room { OnOk result (records.is_new id database.now.records ≡ true
        → length database.now.records < most_entries) }
{
    let Some(asked) = RecordId::new(id) else {
        return Err(Refusal::Parameter);
    };
    let Some(sorted) = Category::new(category) else {
        return Err(Refusal::Parameter);
    };
    if is_new(database, id) && database.records().len() >= Database::GREATEST_COUNT {
        return Err(Refusal::Limit);
    }
    Ok((asked, sorted))
}

// The ids of records from an index on, at most so many.
pub(crate) fn ids_from(
    alloc: Global,
    items: &[Record],
    start: usize,
    count: usize,
) -> Result<Vec<RecordId>, AllocError>
    ensures { IfOk result (λ ids. ids.items ≡ take count (drop start (ids_of items.now))) }
{
    let rest = &items[start.min(items.len())..];
    let some = &rest[..count.min(rest.len())];
    some.iter().map(|item| item.id).collect(alloc)
}
