// The files that a change writes.
ghost use Rattle.std.specs.Prelude.{◌≡◌, ◌++◌, ◌∷◌, [], IfOk, OnOk};
ghost use Rattle.std.specs.List.{AllByRecursion, flat_map};
ghost use Rattle.pdb_files.specs.Files.{IsFileText, canonical};
ghost use Rattle.desk_journal.specs.Entries.{entry_value, entry_values};
ghost use Rattle.folder_files.specs.InfoFiles.{IsDesktopFile, desktop_text};
ghost use Rattle.folder_files.specs.Slots.{AllRise, AreSlots, all_marks};
ghost use Rattle.desk_store.specs.Changes as changes;
ghost use Rattle.desk_store.specs.Changes.{IsDbWritten, database_entry, db_entries};

use crate::change::DbChange;
use crate::role::Role;
use desk_journal::Entry;
use folder_files::{DESKTOP_INFO, SlotInfo, write_desktop_info};
use pdb_files::write_database;
use pdb_values::Database;
use std::alloc::{AllocError, Global};

// The files of each database in order, in a slot.
pub(crate) fn database_entries(
    alloc: Global,
    slot: usize,
    databases: &[DbChange],
) -> Result<Vec<Entry>, AllocError>
    ensures entries { IfOk result (λ entries. entry_values entries.items
        ≡ flat_map (db_entries slot) databases.now) }
    ensures written { IfOk result (λ _. AllByRecursion IsDbWritten databases.now) }
{
    let mut entries = Vec::new(alloc);
    for database in databases {
        push_database(alloc, &mut entries, slot, database)?;
    }
    Ok(entries)
}

// Appends the files of a database that changes.
fn push_database(
    alloc: Global,
    entries: &mut Vec<Entry>,
    slot: usize,
    change: &DbChange,
) -> Result<(), AllocError>
    ensures entries { OnOk result (entry_values entries.new.items
        ≡ entry_values entries.old.items ++ db_entries slot change.now) }
    ensures written { OnOk result (IsDbWritten change.now) }
{
    push_entry(alloc, entries, slot, Role::Rows, &change.rows)?;
    push_entry(alloc, entries, slot, Role::Base, &change.base)?;
    match &change.archive {
        Some(archive) => push_entry(alloc, entries, slot, Role::Archive, archive),
        None => Ok(()),
    }
}

// Appends the file of a database.
fn push_entry(
    alloc: Global,
    entries: &mut Vec<Entry>,
    slot: usize,
    role: Role,
    database: &Database,
) -> Result<(), AllocError>
    ensures entries { OnOk result (entry_values entries.new.items
        ≡ entry_values entries.old.items ++ database_entry slot role database.now ∷ []) }
    ensures written { OnOk result (IsFileText database.now (canonical database.now)) }
{
    let name = role.file(alloc, slot, &database.head().name)?;
    let bytes = write_database(alloc, database)?;
    entries.push(Entry { name, bytes })?;
    Ok(())
}

// The information file.
pub(crate) fn slots_entry(alloc: Global, infos: &[SlotInfo]) -> Result<Entry, AllocError>
    requires formed { AreSlots (all_marks infos.now) }
    requires parted { AllRise infos.now }
    ensures entry { IfOk result (λ entry. entry_value entry ≡ changes.slots_entry infos.now) }
    ensures written { IfOk result (λ _. IsDesktopFile infos.now (desktop_text infos.now)) }
{
    let name = String::from_str(alloc, DESKTOP_INFO)?;
    let text = write_desktop_info(alloc, infos)?;
    Ok(Entry {
        name,
        bytes: text.into_bytes(),
    })
}
