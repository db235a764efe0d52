// The id of a new record.
ghost use Rattle.std.specs.Prelude.{◌≡◌, ◌<◌, ◌≤◌, ℕ, IfNone, IfSome, length, map, true};
ghost use Rattle.palm_device.specs.FreshIds.{is_among};
ghost use Rattle.palm_device.specs.Records.{IsFree};
ghost use Rattle.database_merge.specs.Places.{HasPlaces};

use crate::places::Places;
use pdb_values::{Content, Record, RecordId};

/// A free id for a new record of this content, as a handheld's store draws it: the first free one from a place on that
/// its content tells, coming round at the end.
pub fn free_id(places: &Places, records: &[Record], content: &Content) -> RecordId
    requires few { length records.now ≤ 65535 }
    requires placed { HasPlaces records.now places.now }
    ensures { IsFree result records.now }
{
    let start = drawn_from(content);
    if let Some(id) = first_free(places, records, start, RecordId::GREATEST + 1) {
        return id;
    }
    match first_free(places, records, 1, start) {
        Some(id) => id,
        None => unreachable!(),
    }
}

// A number from 1 to the greatest id, drawn from a content.
fn drawn_from(content: &Content) -> u32
    ensures some { 1 ≤ result }
    ensures bound { result ≤ 16777215 }
{
    let mut sum = u32::from(content.category().number());
    if content.secret() {
        sum += 16;
    }
    for byte in content.bytes() {
        sum = (sum ^ u32::from(*byte)).wrapping_mul(16_777_619);
    }
    sum % RecordId::GREATEST + 1
}

// The first id from a number on and below another that no record has.
fn first_free(places: &Places, records: &[Record], start: u32, end: u32) -> Option<RecordId>
    requires placed { HasPlaces records.now places.now }
    requires some { 1 ≤ start }
    requires bound { end ≤ 16777216 }
    ensures free { IfSome result (λ id. IsFree id records.now) }
    ensures taken { IfNone result ((k : ℕ) → start ≤ k → k < end
        → is_among k (map (λ item. item.id) records.now) ≡ true) }
{
    for number in start..end {
        if places.place(records, number).is_none() {
            return RecordId::new(number);
        }
    }
    None
}
