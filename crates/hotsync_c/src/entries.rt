//! All entries of a database's file at once.

ghost use Rattle.std.specs.Prelude.{◌≡◌, ◌++◌, ◌≤◌, All, IfErr, IfOk, OnOk, length, map};
ghost use Rattle.std.specs.List.{concat};
ghost use Rattle.pdb_files.specs.Entries.{record_data, resource_data};
ghost use Rattle.pdb_files.specs.Files.{data_of};
ghost use Rattle.hotsync_c.specs.Entries.{AnswersEntries, AreEntriesOf, PutsEntries, rooms_of};
ghost use Rattle.hotsync_c.specs.Files.{RefusesFile};
ghost use Rattle.hotsync_c.specs.Parts.{entries_of, record_entry, resource_entry};

use crate::entry::{read_file, record_entry, resource_entry};
use crate::parts::HsEntry;
use crate::refusal::Refusal;
use pdb_values::{Database, Record, Resource};
use std::alloc::{AllocError, Global};

// What stands in front of each entry, and the bytes of all of them.
#[derive(Drop)]
struct Packed {
    entries: Vec<HsEntry>,
    bytes: Vec<u8>,
}

/// Puts what stands in front of each entry of a file's database into `entries`, and the bytes of all of them, one behind
/// the other, into the room: the entries and the bytes that `hs_build` takes. Where one of the two is too small neither is
/// written. The file is read once.
///
/// The answer is how many entries there are, and `size` says how many bytes they have together; or -2 for bytes that are no
/// database's file, or -1 where memory was refused: then `size` is as it was.
#[unsafe(no_mangle)]
pub extern "C" fn hs_entries(
    alloc: Global,
    file: &[u8],
    entries: &mut [HsEntry],
    room: &mut [u8],
    size: &mut u64,
) -> i64
    ensures { AnswersEntries (AreEntriesOf file.now) (RefusesFile file.now)
        (rooms_of entries.old room.old size.old) (rooms_of entries.new room.new size.new) result }
{
    match packed_in(alloc, file) {
        Ok(packed) => put_packed(&packed, entries, room, size),
        Err(refusal) => refusal.answer(),
    }
}

// The entries of a file's database.
fn packed_in(alloc: Global, file: &[u8]) -> Result<Packed, Refusal>
    ensures packed { IfOk result (λ packed. AreEntriesOf file.now packed.entries.items packed.bytes.items) }
    ensures refused { IfErr result (RefusesFile file.now) }
{
    let database = read_file(alloc, file)?;
    Ok(packed_of(alloc, &database)?)
}

// The entries of a database.
fn packed_of(alloc: Global, database: &Database) -> Result<Packed, AllocError>
    ensures entries { IfOk result (λ packed. packed.entries.items ≡ entries_of database.now) }
    ensures bytes { IfOk result (λ packed. packed.bytes.items ≡ concat (data_of database.now)) }
{
    let mut packed = Packed {
        entries: Vec::new(alloc),
        bytes: Vec::new(alloc),
    };
    if database.head().holds_resources() {
        push_resources(&mut packed, database.resources())?;
    } else {
        push_records(&mut packed, database.records())?;
    }
    Ok(packed)
}

// Puts records behind the entries that there are.
fn push_records(packed: &mut Packed, records: &[Record]) -> Result<(), AllocError>
    ensures entries { OnOk result (packed.new.entries.items
        ≡ packed.old.entries.items ++ map record_entry records.now) }
    ensures bytes { OnOk result (packed.new.bytes.items
        ≡ packed.old.bytes.items ++ concat (record_data records.now)) }
{
    for item in records {
        packed.entries.push(record_entry(item))?;
        packed.bytes.extend_from_slice(item.content.bytes())?;
    }
    Ok(())
}

// Puts resources behind the entries that there are.
fn push_resources(packed: &mut Packed, resources: &[Resource]) -> Result<(), AllocError>
    requires { All (λ resource. length resource.bytes ≤ 65500) resources.now }
    ensures entries { OnOk result (packed.new.entries.items
        ≡ packed.old.entries.items ++ map resource_entry resources.now) }
    ensures bytes { OnOk result (packed.new.bytes.items
        ≡ packed.old.bytes.items ++ concat (resource_data resources.now)) }
{
    for resource in resources {
        packed.entries.push(resource_entry(resource))?;
        packed.bytes.extend_from_slice(resource.bytes.as_slice())?;
    }
    Ok(())
}

// Puts entries and their bytes into both rooms where both fit, and says how many there are.
fn put_packed(packed: &Packed, entries: &mut [HsEntry], room: &mut [u8], size: &mut u64) -> i64
    ensures { PutsEntries packed.now.entries.items packed.now.bytes.items
        (rooms_of entries.old room.old size.old) (rooms_of entries.new room.new size.new) result }
{
    *size = packed.bytes.len() as u64;
    if packed.entries.len() <= entries.len() && packed.bytes.len() <= room.len() {
        entries[..packed.entries.len()].copy_from_slice(&packed.entries);
        room[..packed.bytes.len()].copy_from_slice(&packed.bytes);
    }
    packed.entries.len() as i64
}
