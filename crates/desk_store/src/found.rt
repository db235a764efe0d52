// What was found in the files of a folder.
ghost use Rattle.std.specs.Prelude.{◌≡◌, IfErr, OnOk, length};
ghost use Rattle.desk_store.specs.Bounds.{KeepsBounds};
ghost use Rattle.desk_store.specs.DeskFiles.{file_in};
ghost use Rattle.desk_store.specs.Finds.{Adds, Refuses, with_database_at};
ghost use Rattle.desk_store.specs.Shelves.{if_bad};

use crate::bounds::see_database;
use crate::fault::DeskOpenFault;
use crate::file::DeskFile;
use crate::file_fault::DeskFileFault;
use crate::reader::read_desk_file;
use crate::role::Role;
use crate::slot::DeskSlot;
use pdb_values::Database;
use std::alloc::{AllocError, Global};

// Adds what the file of this name and these bytes holds.
pub(crate) fn add_file(
    alloc: Global,
    name: &str,
    bytes: &[u8],
    slots: &mut Vec<DeskSlot>,
) -> Result<(), DeskOpenFault>
    ensures added { OnOk result (Adds (file_in (length slots.old.items) name.now bytes.now)
        slots.old.items slots.new.items) }
    ensures refused { IfErr result
        (Refuses name.now (if_bad (file_in (length slots.old.items) name.now bytes.now))) }
    ensures bounded { OnOk result (KeepsBounds slots.old.items slots.new.items) }
{
    let file = match read_desk_file(alloc, slots.len(), name, bytes) {
        Ok(file) => file,
        Err(DeskFileFault::Bad(bad)) => {
            return Err(DeskOpenFault::BadFile {
                name: String::from_str(alloc, name)?,
                kind: bad.kind,
                place: bad.place,
            });
        }
        Err(DeskFileFault::NoMemory) => return Err(DeskOpenFault::NoMemory),
    };
    match file {
        DeskFile::Database(slot, role, database) => put_bounded(slots, slot, role, database)?,
        DeskFile::Other => {}
    }
    Ok(())
}

// Puts a database into the slot at this place, where it is there. A database is within bounds.
fn put_bounded(
    slots: &mut Vec<DeskSlot>,
    place: usize,
    role: Role,
    database: Database,
) -> Result<(), AllocError>
    ensures put { OnOk result (slots.new.items
        ≡ with_database_at place role database slots.old.items) }
    ensures bounded { OnOk result (KeepsBounds slots.old.items slots.new.items) }
{
    see_database(&database);
    put_at(slots, place, role, database)
}

// Puts a database into the slot at this place, where it is there.
fn put_at(
    slots: &mut Vec<DeskSlot>,
    place: usize,
    role: Role,
    database: Database,
) -> Result<(), AllocError>
    ensures { OnOk result (slots.new.items ≡ with_database_at place role database slots.old.items) }
{
    match slots.get_mut(place) {
        Some(slot) => slot.shelves.put(role, database),
        None => Ok(()),
    }
}
