// Reading the files of a folder.
ghost use Rattle.std.specs.Prelude.{◌≡◌, ◌≤◌, ◌<◌, [], IfErr, IfOk, IfSome, IsErrOf, OnOk, length, map, string_bytes};
ghost use Rattle.folder_files.specs.Slots.{AreSlots};
ghost use Rattle.hs_folders.specs.Causes.{HasCause};
ghost use Rattle.hs_folders.specs.Moments.{OnlyRead};
ghost use Rattle.desk_store.specs.Bounds.{KeepsBounds};
ghost use Rattle.desk_store.specs.Shelves.{bad_at, file_at, marks_of, slots_in};
ghost use Rattle.desk_store.specs.Finds.{AddsAny, FindsAll, KeepsForm, RefusesAmong, RefusesAt, first_bad};

use crate::fault::DeskOpenFault;
use crate::found::add_file;
use crate::reader::is_desk_file;
use crate::slot::DeskSlot;
use hs_folders::{Folder, FolderFault};
use std::alloc::Global;

// Reads these files in their order, up to the first bad one, and adds what they hold to the slots, which have no database yet.
pub(crate) fn read_files<F: Folder>(
    alloc: Global,
    folder: &mut F,
    names: &[String],
    slots: Vec<DeskSlot>,
) -> Result<Vec<DeskSlot>, DeskOpenFault>
    requires start { IfSome (F.contents folder.old) (λ held. FindsAll held [] slots.items) }
    requires formed { AreSlots (marks_of slots.items) }
    ensures found { IfOk result (λ found. IfSome (F.contents folder.old)
        (λ held. FindsAll held (map string_bytes names.now) found.items)) }
    ensures form { IfOk result (λ found. KeepsForm slots.items found.items) }
    ensures bounded { IfOk result (λ found. KeepsBounds slots.items found.items) }
    ensures refused { IfErr result (λ fault. IfSome (F.contents folder.old) (λ held.
        RefusesAmong (first_bad held (length (slots_in held)) (map string_bytes names.now))
        fault)) }
    ensures cause { HasCause (F.faults folder.old) (F.faults folder.new)
        (IsErrOf result DeskOpenFault.DeskFault) }
    ensures read { OnlyRead F.contents F.moments F.paths F.faults folder.old folder.new }
{
    let mut found = slots;
    for name in names {
        match read_file(alloc, folder, name.as_str(), &mut found) {
            Ok(()) => {}
            Err(fault) => return Err(fault),
        }
    }
    Ok(found)
}

// Reads one file, if it is one that a desktop reads. One that is listed and then missing counts as not there.
fn read_file<F: Folder>(
    alloc: Global,
    folder: &mut F,
    name: &str,
    slots: &mut Vec<DeskSlot>,
) -> Result<(), DeskOpenFault>
    ensures added { OnOk result (IfSome (F.contents folder.old) (λ held. AddsAny
        (file_at held (length slots.old.items) name.now) slots.old.items slots.new.items)) }
    ensures form { OnOk result (KeepsForm slots.old.items slots.new.items) }
    ensures bounded { OnOk result (KeepsBounds slots.old.items slots.new.items) }
    ensures refused { IfErr result (λ fault. IfSome (F.contents folder.old)
        (λ held. RefusesAt name.now (bad_at held (length slots.old.items) name.now) fault)) }
    ensures cause { HasCause (F.faults folder.old) (F.faults folder.new)
        (IsErrOf result DeskOpenFault.DeskFault) }
    ensures read { OnlyRead F.contents F.moments F.paths F.faults folder.old folder.new }
{
    if !is_desk_file(name) {
        return Ok(());
    }
    let bytes = match folder.read(alloc, name) {
        Ok(bytes) => bytes,
        Err(FolderFault::Missing) => return Ok(()),
        Err(fault) => return Err(DeskOpenFault::from(fault)),
    };
    match add_file(alloc, name, &bytes, slots) {
        Ok(()) => Ok(()),
        Err(fault) => Err(fault),
    }
}
