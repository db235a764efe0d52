// Records of a database, by id and category, and what becomes of them.
ghost use Rattle.std.specs.Prelude.{◌≡◌, ◌<◌, ◌++◌, ◌∷◌, ◌↔◌, [], None, false, IfOk, IfSome, IsTrue, OnErr, OnOk, filter, is_some, length, position, remove};
ghost use Rattle.std.specs.List.{list_all, list_any};
ghost use Rattle.pdb_values.specs.Heads.{holds_resources};
ghost use Rattle.palm_device.specs.Edits.{Tells};
ghost use Rattle.palm_device.specs.Entries.{change_at};
ghost use Rattle.palm_device.specs.Kept.{is_kept};
ghost use Rattle.palm_device.specs.Records as records;
ghost use Rattle.palm_device.specs.Records.{with_records};

use crate::kept::Kept;
use pdb_values::{Category, Content, Database, Record, RecordId};
use std::alloc::AllocError;

/// Where the record of an id stands.
pub fn place_of_id(items: &[Record], id: u32) -> Option<usize>
    ensures place { result ≡ records.place_of_id id items.now }
    ensures within { IfSome result (λ place. place < length items.now) }
{
    items.iter().position(|item| item.id.number() == id)
}

// Whether the record changed since the last HotSync, or was deleted.
fn is_changed(item: &Record) -> bool
    ensures { result ≡ records.is_changed item.now }
{
    item.deleted || item.dirty
}

/// Where the first record from an index on stands that changed since the last HotSync or was deleted.
pub fn next_changed(items: &[Record], index: usize) -> Option<usize>
    ensures place { result ≡ records.next_changed index items.now }
    ensures within { IfSome result (λ place. place < length items.now) }
{
    if index > items.len() {
        return None;
    }
    match first_changed(&items[index..]) {
        Some(place) => Some(index + place),
        None => None,
    }
}

// Where the first record stands that changed or was deleted.
fn first_changed(items: &[Record]) -> Option<usize>
    ensures place { result ≡ position records.is_changed items.now }
    ensures within { IfSome result (λ place. place < length items.now) }
{
    items.iter().position(|item| is_changed(item))
}

/// The id of a record that is written: a new one of id 0 gets the free id.
pub fn given_id(free: RecordId, id: RecordId) -> RecordId
    ensures { result ≡ records.given_id free id }
{
    if id.number() == 0 { free } else { id }
}

// Whether a record is live and dirty with this content.
fn is_set(item: &Record, content: &Content) -> bool
    ensures { IsTrue result ↔ (records.rewritten content.now item.now ≡ item.now) }
{
    !item.deleted && item.dirty && item.content.same(content)
}

/// Makes the record at a place live and dirty with this content. Answers whether that makes another database.
#[tactic(auto, using(crate::proofs::TellingLaws::tells_change, crate::proofs::TellingLaws::tells_no_change))]
pub fn set_record(database: &mut Database, place: usize, content: Content) -> bool
    ensures set { database.new ≡ with_records
        (change_at (records.rewritten content) place database.old.records) database.old }
    ensures differs { Tells database.old (with_records
        (change_at (records.rewritten content) place database.old.records) database.old) result }
{
    match database.record_mut(place) {
        Some(item) => {
            let same = is_set(item, &content);
            item.deleted = false;
            item.dirty = true;
            item.content = content;
            !same
        }
        None => false,
    }
}

/// Gives the record of an id another content in its place, live and dirty, or puts a new last one, where there is room.
/// Answers whether that makes another database.
#[tactic(auto, using(crate::proofs::RecordLaws::put_record_placed, crate::proofs::RecordLaws::put_record_new, crate::proofs::TellingLaws::tells_new_record))]
pub fn put_record(
    database: &mut Database,
    id: RecordId,
    content: Content,
) -> Result<bool, AllocError>
    requires records { holds_resources database.old.head.attributes ≡ false }
    requires room { records.place_of_id id database.old.records ≡ None
        → length database.old.records < 65535 }
    ensures put { OnOk result (database.new
        ≡ with_records (records.put_record id content database.old.records) database.old) }
    ensures differs { IfOk result (Tells database.old
        (with_records (records.put_record id content database.old.records) database.old)) }
    ensures stays { OnErr result (database.new ≡ database.old) }
{
    let Some(place) = place_of_id(database.records(), id.number()) else {
        push_record(database, id, content)?;
        return Ok(true);
    };
    Ok(set_record(database, place, content))
}

// Puts a new last record, live and dirty.
fn push_record(database: &mut Database, id: RecordId, content: Content) -> Result<(), AllocError>
    requires records { holds_resources database.old.head.attributes ≡ false }
    requires room { length database.old.records < 65535 }
    ensures pushed { OnOk result (database.new
        ≡ with_records (database.old.records ++ records.new_record id content ∷ []) database.old) }
    ensures stays { OnErr result (database.new ≡ database.old) }
{
    let item = Record {
        id,
        deleted: false,
        dirty: true,
        busy: false,
        content,
    };
    match database.push_record(item) {
        Ok(()) => Ok(()),
        Err(_) => Err(AllocError),
    }
}

/// Takes out the record of an id. Answers whether there was one, which makes another database.
#[tactic(auto, using(crate::proofs::RecordLaws::without_record_at, crate::proofs::RecordLaws::without_record_none, crate::proofs::TellingLaws::tells_purge))]
pub fn purge_record(database: &mut Database, id: u32) -> bool
    ensures purged { database.new ≡ with_records
        (records.without_record id database.old.records) database.old }
    ensures found { result ≡ is_some (records.place_of_id id database.old.records) }
    ensures differs { Tells database.old (with_records
        (records.without_record id database.old.records) database.old) result }
{
    let Some(place) = place_of_id(database.records(), id) else {
        return false;
    };
    take_out(database, place);
    true
}

// Takes the record at a place out.
fn take_out(database: &mut Database, place: usize)
    requires { place < length database.old.records }
    ensures { database.new ≡ with_records (remove database.old.records place) database.old }
{
    let _taken = database.remove_record(place);
}

// Whether all of the records are kept.
fn are_kept(items: &[Record], kept: &Kept) -> bool
    ensures { result ≡ list_all (is_kept kept.now) items.now }
{
    items.iter().all(|item| kept.keeps(item))
}

/// Takes out all records but those that are kept. The others keep their order. Answers whether that makes another database.
#[tactic(auto, using(crate::proofs::TellingLaws::tells_keep))]
pub fn keep_records(database: &mut Database, kept: &Kept) -> bool
    ensures left { database.new ≡ with_records
        (filter (is_kept kept.now) database.old.records) database.old }
    ensures differs { Tells database.old (with_records
        (filter (is_kept kept.now) database.old.records) database.old) result }
{
    let all = are_kept(database.records(), kept);
    take_others_out(database, kept);
    !all
}

// Takes out all records but those that are kept.
fn take_others_out(database: &mut Database, kept: &Kept)
    ensures { database.new ≡ with_records
        (filter (is_kept kept.now) database.old.records) database.old }
{
    database.retain_records(|item| kept.keeps(item));
}

/// Takes out all records. Answers whether that makes another database.
#[tactic(auto, using(crate::proofs::TellingLaws::tells_no_records))]
pub fn clear_records(database: &mut Database) -> bool
    ensures cleared { database.new ≡ with_records [] database.old }
    ensures differs { Tells database.old (with_records [] database.old) result }
{
    let none = database.records().is_empty();
    take_all_out(database);
    !none
}

// Takes out all records, the last one first.
fn take_all_out(database: &mut Database)
    ensures { database.new ≡ with_records [] database.old }
{
    while !database.records().is_empty() {
        let last = database.records().len() - 1;
        take_out(database, last);
    }
}

// Whether one of the records is dirty.
fn has_dirty(items: &[Record]) -> bool
    ensures { result ≡ list_any (λ item. item.dirty) items.now }
{
    items.iter().any(|item| item.dirty)
}

/// Clears each record's dirty bit. Answers whether that makes another database.
#[tactic(auto, using(crate::proofs::TellingLaws::tells_flags))]
pub fn reset_flags(database: &mut Database) -> bool
    ensures reset { database.new ≡ with_records
        (records.reset_flags database.old.records) database.old }
    ensures differs { Tells database.old (with_records
        (records.reset_flags database.old.records) database.old) result }
{
    let some = has_dirty(database.records());
    reset_all(database);
    some
}

// Clears each record's dirty bit.
#[tactic(auto, using(crate::proofs::EntryLaws::map_next))]
fn reset_all(database: &mut Database)
    ensures { database.new ≡ with_records (records.reset_flags database.old.records) database.old }
{
    for place in 0..database.records().len() {
        reset_record(database, place);
    }
}

// Clears the dirty bit of the record at a place.
fn reset_record(database: &mut Database, place: usize)
    ensures { database.new ≡ with_records
        (change_at records.clean place database.old.records) database.old }
{
    if let Some(item) = database.record_mut(place) {
        item.dirty = false;
    }
}

// Whether a record stays as it is where one category goes to another.
fn stays(item: &Record, from: Category, to: Category) -> bool
    ensures { result ≡ records.stays_in from to item.now }
{
    item.content.category() != from || (item.dirty && from == to)
}

// Whether each record stays as it is where one category goes to another.
fn all_stay(items: &[Record], from: Category, to: Category) -> bool
    ensures { result ≡ list_all (records.stays_in from to) items.now }
{
    items.iter().all(|item| stays(item, from, to))
}

/// Puts each record of a category into another one and makes it dirty. Answers whether that makes another database.
#[tactic(auto, using(crate::proofs::TellingLaws::tells_moved))]
pub fn move_category(database: &mut Database, from: Category, to: Category) -> bool
    ensures moved { database.new ≡ with_records
        (records.move_category from to database.old.records) database.old }
    ensures differs { Tells database.old (with_records
        (records.move_category from to database.old.records) database.old) result }
{
    let same = all_stay(database.records(), from, to);
    move_all(database, from, to);
    !same
}

// Puts each record of a category into another one and makes it dirty.
#[tactic(auto, using(crate::proofs::EntryLaws::map_next))]
fn move_all(database: &mut Database, from: Category, to: Category)
    ensures { database.new ≡ with_records
        (records.move_category from to database.old.records) database.old }
{
    for place in 0..database.records().len() {
        move_record_at(database, place, from, to);
    }
}

// Puts the record at a place into another category and makes it dirty, if it is of the first one.
fn move_record_at(database: &mut Database, place: usize, from: Category, to: Category)
    ensures { database.new ≡ with_records
        (change_at (records.moved from to) place database.old.records) database.old }
{
    if let Some(item) = database.record_mut(place) {
        move_record(item, from, to);
    }
}

// Puts a record of a category into another one and makes it dirty.
fn move_record(item: &mut Record, from: Category, to: Category)
    ensures { item.new ≡ records.moved from to item.old }
{
    if item.content.category() == from {
        item.dirty = true;
        item.content.set_category(to);
    }
}
