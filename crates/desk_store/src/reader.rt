// Reading one file of a desktop.
ghost use Rattle.std.specs.Prelude.{◌≡◌, false, ℕ, IfOk, List, Ok, Some};
ghost use Rattle.pdb_files.specs.Reading.{database_in};
ghost use Rattle.folder_files.specs.InfoFiles.{desktop_in};
ghost use Rattle.desk_journal.specs.Overlays.{bad_of};
ghost use Rattle.desk_store.specs.DeskFiles.{Reads, broken_rule, file_in, if_journal, if_own, if_slots, is_desk_file as is_name_of_desktop, is_own_file as stands_in_its_file, other_in, own_slot as slot_of_own};

use crate::file::DeskFile;
use crate::file_fault::{BadDeskFile, DeskFileFault};
use crate::role::Role;
use desk_journal::{JournalFault, read_journal};
use folder_files::{DESKTOP_INFO, InfoFault, JOURNAL, is_kept_file, read_desktop_info};
use pdb_files::{BadKind, read_database};
use pdb_values::Database;
use std::alloc::{AllocError, Global};

// Whether a desktop reads the file of this name. Any other holds nothing to it, whatever its bytes.
#[tactic(auto, using(crate::proofs::FileLaws::file_in_other))]
pub(crate) fn is_desk_file(name: &str) -> bool
    ensures named { result ≡ is_name_of_desktop name.now }
    ensures others { is_name_of_desktop name.now ≡ false → (slots : ℕ) (bytes : List ℕ)
        → file_in slots name.now bytes ≡ Ok DeskFile.Other }
{
    is_kept_file(name) || name == JOURNAL
}

/// Reads the file of this name, which is all of the bytes, of a desktop with so many slots.
///
/// The tests on a database stand in this order: the rules of its format; it has records, and the file bears the name that
/// it asks for in one of the slots.
#[tactic(auto, unfolding(crate::specs::DeskFiles::file_in))]
pub fn read_desk_file(
    alloc: Global,
    slots: usize,
    name: &str,
    bytes: &[u8],
) -> Result<DeskFile, DeskFileFault>
    ensures { Reads result (file_in slots name.now bytes.now) }
{
    match Role::of_file(name) {
        Some(role) => read_own_database(alloc, slots, role, name, bytes),
        None => read_other(alloc, name, bytes),
    }
}

// The database of a file that bears its name.
fn read_own_database(
    alloc: Global,
    slots: usize,
    role: Role,
    name: &str,
    bytes: &[u8],
) -> Result<DeskFile, DeskFileFault>
    ensures { let database = database_in bytes.now in Reads result
        (if_own role database (slot_of_own slots role name.now database) (broken_rule bytes.now)) }
{
    let database = match read_database(alloc, bytes) {
        Ok(database) => database,
        Err(fault) => {
            return Err(match fault.bad_file() {
                Some((kind, place)) => DeskFileFault::Bad(BadDeskFile { kind, place }),
                None => DeskFileFault::NoMemory,
            });
        }
    };
    match own_slot(alloc, slots, role, name, &database)? {
        Some(slot) => Ok(DeskFile::Database(slot, role, database)),
        None => Err(DeskFileFault::Bad(BadDeskFile {
            kind: BadKind::FileName,
            place: 0,
        })),
    }
}

// The slot in which a database has records and the file bears the name that it asks for.
fn own_slot(
    alloc: Global,
    slots: usize,
    role: Role,
    name: &str,
    database: &Database,
) -> Result<Option<usize>, AllocError>
    ensures { IfOk result (λ slot. slot ≡ slot_of_own slots role name.now database.now) }
{
    for slot in 0..slots {
        let own = is_own_file(alloc, slot, role, name, database)?;
        if own {
            return Ok(Some(slot));
        }
    }
    Ok(None)
}

// Whether a database has records, and the file bears the name that it asks for in a slot.
fn is_own_file(
    alloc: Global,
    slot: usize,
    role: Role,
    name: &str,
    database: &Database,
) -> Result<bool, AllocError>
    ensures { IfOk result (λ own. own ≡ stands_in_its_file slot role name.now database.now) }
{
    let head = database.head();
    if head.holds_resources() {
        return Ok(false);
    }
    let file = role.file(alloc, slot, &head.name)?;
    Ok(name == file.as_str())
}

// A file that is no database.
fn read_other(alloc: Global, name: &str, bytes: &[u8]) -> Result<DeskFile, DeskFileFault>
    ensures { Reads result (other_in name.now bytes.now) }
{
    if name == DESKTOP_INFO {
        return read_info(alloc, bytes);
    }
    if name == JOURNAL {
        return read_pending(alloc, bytes);
    }
    Ok(DeskFile::Other)
}

// The information file, which is tested alone.
fn read_info(alloc: Global, bytes: &[u8]) -> Result<DeskFile, DeskFileFault>
    ensures { Reads result (if_slots (desktop_in bytes.now)) }
{
    match read_desktop_info(alloc, bytes) {
        Ok(_) => Ok(DeskFile::Other),
        Err(InfoFault::Bad(bad)) => Err(DeskFileFault::Bad(BadDeskFile {
            kind: BadKind::Info,
            place: bad.place,
        })),
        Err(InfoFault::NoMemory) => Err(DeskFileFault::NoMemory),
    }
}

// A journal, which is tested alone.
fn read_pending(alloc: Global, bytes: &[u8]) -> Result<DeskFile, DeskFileFault>
    ensures { Reads result (if_journal (bad_of (Some bytes.now))) }
{
    match read_journal(alloc, bytes) {
        Ok(_) => Ok(DeskFile::Other),
        Err(JournalFault::Bad(bad)) => Err(DeskFileFault::Bad(BadDeskFile {
            kind: BadKind::Journal,
            place: bad.place,
        })),
        Err(JournalFault::NoMemory) => Err(DeskFileFault::NoMemory),
    }
}
