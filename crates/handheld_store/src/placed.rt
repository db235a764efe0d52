// Records that are written where they stand, with the file of their database.
ghost use Rattle.std.specs.Prelude.{◌≡◌, ◌<◌, ◌++◌, ◌∷◌, [], IfSome, IsErrOf, None, OnErr, OnOk, Some, false, is_err, length, slice_get, slice_set};
ghost use Rattle.hs_folders.specs.Moments.{OneChange};
ghost use Rattle.pdb_values.specs.Heads.{holds_resources};
ghost use Rattle.palm_device.specs.Records as records;
ghost use Rattle.palm_device.specs.Records.{with_records};
ghost use Rattle.handheld_store.specs.Files.{Follows, HasText};
ghost use Rattle.handheld_store.specs.Refusals.{stops};

use crate::copies::same_record;
use crate::fault::StoreFault;
use crate::files::write_database_file;
use hs_folders::Folder;
use pdb_values::{Content, Database, Record, RecordId};
use std::alloc::Global;
use std::mem;

/// Writes a record of a database in its place, or behind the others, and the database's file. Nothing
/// is written where that makes no other database. After a refusal the database is as before.
#[tactic(auto, using(palm_device::proofs::RecordLaws::put_record_at, palm_device::proofs::RecordLaws::put_record_new, handheld_files::proofs::FreshLaws::get_some))]
pub fn write_record<F: Folder>(
    alloc: Global,
    folder: &mut F,
    database: &mut Database,
    place: Option<usize>,
    id: RecordId,
    content: Content,
) -> Result<(), StoreFault>
    requires records { holds_resources database.old.head.attributes ≡ false }
    requires place { place ≡ records.place_of_id id database.old.records }
    requires within { IfSome place (λ place. place < length database.old.records) }
    requires room { place ≡ None → length database.old.records < 65535 }
    ensures written { OnOk result (database.new
        ≡ with_records (records.put_record id content database.old.records) database.old) }
    ensures stays { OnErr result (database.new ≡ database.old) }
    ensures follows { OnOk result (Follows (Some database.old) (Some database.new)
        (F.contents folder.old) (F.contents folder.new)) }
    ensures text { OnOk result (HasText database.old database.new) }
    ensures change { OneChange F.contents F.moments F.paths F.faults folder.old folder.new
        result (IsErrOf result StoreFault.KeeperFault) }
    ensures stops { stops result ≡ is_err result }
{
    match place {
        Some(place) => {
            let item = rewritten(&database.records()[place], content);
            rewrite_record(alloc, folder, database, place, item)
        }
        None => append_record(alloc, folder, database, new_record(id, content)),
    }
}

// A record with another content, live and dirty.
fn rewritten(item: &Record, content: Content) -> Record
    ensures { result ≡ records.rewritten content item.now }
{
    Record {
        id: item.id,
        deleted: false,
        dirty: true,
        busy: item.busy,
        content,
    }
}

// A new record, live and dirty.
fn new_record(id: RecordId, content: Content) -> Record
    ensures { result ≡ records.new_record id content }
{
    Record {
        id,
        deleted: false,
        dirty: true,
        busy: false,
        content,
    }
}

// Puts a record in the place of another one, and writes the database's file.
fn rewrite_record<F: Folder>(
    alloc: Global,
    folder: &mut F,
    database: &mut Database,
    place: usize,
    item: Record,
) -> Result<(), StoreFault>
    requires there { place < length database.old.records }
    ensures written { OnOk result (database.new
        ≡ with_records (slice_set database.old.records place item) database.old) }
    ensures stays { OnErr result (database.new ≡ database.old) }
    ensures follows { OnOk result (Follows (Some database.old) (Some database.new)
        (F.contents folder.old) (F.contents folder.new)) }
    ensures text { OnOk result (HasText database.old database.new) }
    ensures change { OneChange F.contents F.moments F.paths F.faults folder.old folder.new
        result (IsErrOf result StoreFault.KeeperFault) }
    ensures stops { stops result ≡ is_err result }
{
    if same_record(&database.records()[place], &item) {
        return Ok(());
    }
    let was = replace_record(database, place, item);
    match write_database_file(alloc, folder, database) {
        Ok(()) => Ok(()),
        Err(fault) => {
            let _written = replace_record(database, place, was);
            Err(fault)
        }
    }
}

// Puts a record behind the others, and writes the database's file.
fn append_record<F: Folder>(
    alloc: Global,
    folder: &mut F,
    database: &mut Database,
    item: Record,
) -> Result<(), StoreFault>
    requires records { holds_resources database.old.head.attributes ≡ false }
    requires room { length database.old.records < 65535 }
    ensures written { OnOk result (database.new
        ≡ with_records (database.old.records ++ item ∷ []) database.old) }
    ensures stays { OnErr result (database.new ≡ database.old) }
    ensures follows { OnOk result (Follows (Some database.old) (Some database.new)
        (F.contents folder.old) (F.contents folder.new)) }
    ensures text { OnOk result (HasText database.old database.new) }
    ensures change { OneChange F.contents F.moments F.paths F.faults folder.old folder.new
        result (IsErrOf result StoreFault.KeeperFault) }
    ensures stops { stops result ≡ is_err result }
{
    let last = database.records().len();
    if database.push_record(item).is_err() {
        return Err(StoreFault::NoMemory);
    }
    match write_database_file(alloc, folder, database) {
        Ok(()) => Ok(()),
        Err(fault) => {
            let _written = database.remove_record(last);
            Err(fault)
        }
    }
}

// Puts a record in the place of another one, and hands that out.
fn replace_record(database: &mut Database, place: usize, item: Record) -> Record
    requires { place < length database.old.records }
    ensures was { slice_get database.old.records place ≡ Some result }
    ensures put { database.new
        ≡ with_records (slice_set database.old.records place item) database.old }
{
    match database.record_mut(place) {
        Some(held) => mem::replace(held, item),
        None => item,
    }
}
