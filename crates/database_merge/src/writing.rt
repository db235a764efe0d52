// The writes of a plan, carried out on the handheld's database.
ghost use Rattle.std.specs.Prelude.{◌≡◌, ◌≢◌, ◌+◌, ◌<◌, ◌≤◌, ◌++◌, ◌∷◌, [], Err, IfOk, None, OnOk, Some, false, length};
ghost use Rattle.pdb_values.specs.Heads.{holds_resources};
ghost use Rattle.palm_device.specs.Records as records;
ghost use Rattle.palm_device.specs.Records.{with_records};
ghost use Rattle.record_merge.specs.Writes.{AreFree, adding, after, clean_up, numbered, purges, replaces, reset};
ghost use Rattle.database_merge.specs.Places.{HasPlaces};
ghost use Rattle.database_merge.specs.Seeing.{writes};

use crate::fault::WriteFault;
use crate::free_id::free_id;
use crate::places::Places;
use conduit_rules::Plan;
use palm_device::{Kept, keep_records, purge_record, reset_flags, set_record};
use pdb_values::{Content, Database, Record, RecordId};
use std::alloc::{AllocError, Global};

// Puts a record, in place of the one of its id or behind the others. There is no room for a new one at 65,535 records.
fn write(
    alloc: Global,
    database: &mut Database,
    places: &mut Places,
    id: RecordId,
    content: &Content,
) -> Result<(), WriteFault>
    requires records { holds_resources database.old.head.attributes ≡ false }
    requires placed { HasPlaces database.old.records places.old }
    ensures put { OnOk result (database.new
        ≡ with_records (records.put_record id content.now database.old.records) database.old) }
    ensures placed { OnOk result (HasPlaces database.new.records places.new) }
    ensures full { result ≡ Err WriteFault.Full →
        (records.place_of_id id database.old.records ≡ None)
        × (length database.old.records ≡ 65535) }
{
    let place = places.place(database.records(), id.number());
    if place.is_none() && database.records().len() == Database::GREATEST_COUNT {
        return Err(WriteFault::Full);
    }
    let content = content.copy(alloc)?;
    match place {
        Some(place) => {
            replace(database, places, place, id, content);
            Ok(())
        }
        None => add(database, places, id, content),
    }
}

// Gives the record of an id another content at its place.
#[tactic(auto, using(palm_device::proofs::RecordLaws::put_record_placed, crate::proofs::PlaceLaws::places_set))]
fn replace(database: &mut Database, places: &Places, place: usize, id: RecordId, content: Content)
    requires place { records.place_of_id id database.old.records ≡ Some place }
    requires placed { HasPlaces database.old.records places.now }
    ensures put { database.new
        ≡ with_records (records.put_record id content database.old.records) database.old }
    ensures placed { HasPlaces database.new.records places.now }
{
    let _differs = set_record(database, place, content);
}

// Puts a new last record.
#[tactic(auto, using(palm_device::proofs::RecordLaws::put_record_new))]
fn add(
    database: &mut Database,
    places: &mut Places,
    id: RecordId,
    content: Content,
) -> Result<(), WriteFault>
    requires new { records.place_of_id id database.old.records ≡ None }
    requires room { length database.old.records < 65535 }
    requires records { holds_resources database.old.head.attributes ≡ false }
    requires placed { HasPlaces database.old.records places.old }
    ensures put { OnOk result (database.new
        ≡ with_records (records.put_record id content database.old.records) database.old) }
    ensures placed { OnOk result (HasPlaces database.new.records places.new) }
    ensures memory { result ≢ Err WriteFault.Full }
{
    let item = Record {
        id,
        deleted: false,
        dirty: true,
        busy: false,
        content,
    };
    if database.push_record(item).is_err() {
        return Err(WriteFault::NoMemory);
    }
    places.add(id.number());
    Ok(())
}

// Writes rows over records, or in place of records that are not there.
#[tactic(auto, using(crate::proofs::WriteLaws::replaces_more, crate::proofs::WriteLaws::full_replacing))]
fn replace_all(
    alloc: Global,
    database: &mut Database,
    places: &mut Places,
    rows: &[(RecordId, Content)],
) -> Result<(), WriteFault>
    requires records { holds_resources database.old.head.attributes ≡ false }
    requires placed { HasPlaces database.old.records places.old }
    ensures written { OnOk result (database.new
        ≡ with_records (after (replaces rows.now) database.old.records) database.old) }
    ensures placed { OnOk result (HasPlaces database.new.records places.new) }
    ensures full { result ≡ Err WriteFault.Full →
        65535 < length (after (replaces rows.now) database.old.records) }
{
    for row in rows {
        write(alloc, database, places, row.0, &row.1)?;
    }
    Ok(())
}

// Puts new records behind the others, each under an id that is free at its turn.
#[tactic(auto, using(crate::proofs::WriteLaws::none_added, crate::proofs::WriteLaws::one_added))]
fn add_all(
    alloc: Global,
    database: &mut Database,
    places: &mut Places,
    adds: &[Content],
) -> Result<Vec<RecordId>, WriteFault>
    requires records { holds_resources database.old.head.attributes ≡ false }
    requires placed { HasPlaces database.old.records places.old }
    ensures counted { IfOk result (λ given. length given.items ≡ length adds.now) }
    ensures free { IfOk result (λ given.
        AreFree (numbered given.items adds.now) database.old.records) }
    ensures written { IfOk result (λ given. database.new ≡ with_records
        (after (adding (numbered given.items adds.now)) database.old.records) database.old) }
    ensures room { IfOk result (λ given.
        length database.old.records + length adds.now ≤ 65535) }
    ensures full { result ≡ Err WriteFault.Full →
        65535 < length database.old.records + length adds.now }
{
    let mut given = Vec::new(alloc);
    for content in adds {
        let id = free_id(places, database.records(), content);
        write(alloc, database, places, id, content)?;
        given.push(id)?;
    }
    // A database has at most 65,535 records.
    let _few = database.records();
    Ok(given)
}

// Takes out the records of these ids.
#[tactic(auto, using(crate::proofs::WriteLaws::purges_more))]
fn purge_all(database: &mut Database, ids: &[RecordId])
    ensures { database.new
        ≡ with_records (after (purges ids.now) database.old.records) database.old }
{
    for id in ids {
        let _found = purge_record(database, id.number());
    }
}

// Takes out the records that go, and those with the delete bit; then each counts as unchanged.
fn clear(database: &mut Database, ids: &[RecordId])
    ensures { database.new ≡ with_records
        (after (purges ids.now ++ clean_up ∷ reset ∷ []) database.old.records) database.old }
{
    purge_all(database, ids);
    let _kept = keep_records(database, &Kept::Live);
    let _reset = reset_flags(database);
}

/// Carries a plan out, and gives the ids of its new records.
pub(crate) fn carry_out(
    alloc: Global,
    database: &mut Database,
    plan: &Plan,
) -> Result<Vec<RecordId>, WriteFault>
    requires { holds_resources database.old.head.attributes ≡ false }
    ensures counted { IfOk result (λ given. length given.items ≡ length plan.now.adds.items) }
    ensures free { IfOk result (λ given. AreFree (numbered given.items plan.now.adds.items)
        (after (replaces plan.now.replace.items) database.old.records)) }
    ensures written { IfOk result (λ given. database.new ≡ with_records
        (after (writes plan.now given.items) database.old.records) database.old) }
    ensures room { IfOk result (λ given.
        length (after (replaces plan.now.replace.items) database.old.records)
        + length plan.now.adds.items ≤ 65535) }
    ensures full { result ≡ Err WriteFault.Full →
        65535 < length (after (replaces plan.now.replace.items) database.old.records)
        + length plan.now.adds.items }
{
    let mut places = Places::of(alloc, database.records());
    replace_all(alloc, database, &mut places, &plan.replace)?;
    let given = add_all(alloc, database, &mut places, &plan.adds)?;
    clear(database, &plan.purge);
    Ok(given)
}
