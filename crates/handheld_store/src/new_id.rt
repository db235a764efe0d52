// Ids of records that are written.
ghost use Rattle.std.specs.Prelude.{◌≡◌, ◌<◌, ◌≤◌, ℕ, IfNone, IfSome, None, false, length, map, true};
ghost use Rattle.palm_device.specs.FreshIds.{is_among};
ghost use Rattle.palm_device.specs.Edits.{edit_given, gives_free};
ghost use Rattle.palm_device.specs.Records.{IsFree, given_id, place_of_id as place_of_this_id};
ghost use Rattle.handheld_store.specs.Ids.{GivesGoodId, IsTakenOrFree};

use palm_device::{Edit, place_of_id};
use pdb_values::{Category, Database, Record, RecordId};

// The greatest id.
const GREATEST: u32 = 16_777_215;

/// The id of the record that an edit writes, or 0 where it writes none. A new record of id 0 gets a
/// free one.
pub fn id_for(database: &Database, edit: &Edit<'_>) -> RecordId
    ensures given { edit_given result edit.now ≡ result }
    ensures free { gives_free edit.now ≡ true → IsFree result database.now.records }
    ensures good { GivesGoodId result edit.now database.now }
{
    match *edit {
        Edit::Record {
            id,
            category,
            secret,
            bytes,
        } => written_id(database.records(), id, category, secret, bytes),
        _ => RecordId::new(0).unwrap(),
    }
}

/// The id of a record that is written: this one, or a free one where it is 0.
pub fn written_id(
    records: &[Record],
    id: RecordId,
    category: Category,
    secret: bool,
    bytes: &[u8],
) -> RecordId
    requires { length records.now ≤ 65535 }
    ensures given { given_id result id ≡ result }
    ensures own { 0 < id → result ≡ id }
    ensures free { id ≡ 0 → IsFree result records.now }
    ensures good { IsTakenOrFree result records.now }
{
    if id.number() == 0 {
        free_id(records, category, secret, bytes)
    } else {
        id
    }
}

// A free id for a new record of this content. The first free one is taken from a place on that is
// drawn from the content, coming round at the end. So an id doesn't come back soon once its record is
// gone.
fn free_id(records: &[Record], category: Category, secret: bool, bytes: &[u8]) -> RecordId
    requires { length records.now ≤ 65535 }
    ensures { IsFree result records.now }
{
    let start = drawn_from(category, secret, bytes);
    if let Some(id) = first_free(records, start, GREATEST + 1) {
        return id;
    }
    match first_free(records, 1, start) {
        Some(id) => id,
        None => unreachable!(),
    }
}

// A number from 1 to the greatest id, drawn from a content.
fn drawn_from(category: Category, secret: bool, bytes: &[u8]) -> u32
    ensures some { 1 ≤ result }
    ensures bound { result ≤ 16777215 }
{
    let mut sum = u32::from(category.number());
    if secret {
        sum += 16;
    }
    for byte in bytes {
        sum = (sum ^ u32::from(*byte)).wrapping_mul(16_777_619);
    }
    sum % GREATEST + 1
}

// The first id from a number on and below another that no record has.
fn first_free(records: &[Record], start: u32, end: u32) -> Option<RecordId>
    requires some { 1 ≤ start }
    requires bound { end ≤ 16777216 }
    ensures free { IfSome result (λ id. IsFree id records.now) }
    ensures taken { IfNone result ((k : ℕ) → start ≤ k → k < end
        → is_among k (map (λ item. item.id) records.now) ≡ true) }
{
    for number in start..end {
        if place_of_id(records, number).is_none() {
            return RecordId::new(number);
        }
    }
    None
}
