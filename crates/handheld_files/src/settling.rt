// Ids and busy bits of records where a store is opened.

ghost use Rattle.std.specs.Prelude.{◌≡◌, IfOk, OnErr, OnOk, length, map};
ghost use Rattle.palm_device.specs.Entries.{change_at};
ghost use Rattle.palm_device.specs.FreshIds.{with_ids};
ghost use Rattle.palm_device.specs.Records.{with_records};
ghost use Rattle.handheld_files.specs.Settled.{as_opened, idle, settled};

use crate::fresh::fresh_ids;
use pdb_values::{Database, Record, RecordId};
use std::alloc::{AllocError, Global};

/// Gives each record an id of its own and clears its busy bit. A record keeps its id where it isn't
/// 0 and no earlier record has it; the others get the least ids from 1 that are left, in their order.
#[tactic(auto, unfolding(crate::specs::Settled::as_opened))]
pub fn settle(alloc: Global, database: &mut Database) -> Result<(), AllocError>
    ensures settled { OnOk result (database.new ≡ as_opened database.old) }
    ensures stays { OnErr result (database.new ≡ database.old) }
{
    let ids = ids_of(alloc, database.records())?;
    let fresh = fresh_ids(alloc, &ids)?;
    settle_records(database, &fresh);
    Ok(())
}

// The ids of records in their order.
fn ids_of(alloc: Global, records: &[Record]) -> Result<Vec<RecordId>, AllocError>
    ensures { IfOk result (λ ids. ids.items ≡ map (λ item. item.id) records.now) }
{
    records.iter().map(|item| item.id).collect(alloc)
}

// Gives each record its id, and clears its busy bit.
fn settle_records(database: &mut Database, ids: &[RecordId])
    requires { length ids.now ≡ length database.old.records }
    ensures { database.new
        ≡ with_records (map idle (with_ids ids.now database.old.records)) database.old }
{
    for place in 0..ids.len() {
        settle_record(database, place, ids[place]);
    }
}

// Gives one record its id, and clears its busy bit.
fn settle_record(database: &mut Database, place: usize, id: RecordId)
    ensures { database.new
        ≡ with_records (change_at (settled id) place database.old.records) database.old }
{
    if let Some(item) = database.record_mut(place) {
        item.id = id;
        item.busy = false;
    }
}
