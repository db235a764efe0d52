// Opening a folder as a desktop.
ghost use Rattle.std.specs.Prelude.{◌≡◌, ◌+◌, ◌<◌, ◌≤◌, ◌^◌, [], IfErr, IfOk, IfSome, IsErrOf, Some, codes, if◌then◌else◌, map, string_bytes};
ghost use Rattle.std.specs.FinMap as finmap;
ghost use Rattle.std.specs.Option.{option_map};
ghost use Rattle.hs_folders.specs.Causes.{HasCause};
ghost use Rattle.hs_folders.specs.Moments.{EachMomentSince, OnlyRead};
ghost use Rattle.folder_files.specs.FileNames.{has_ending};
ghost use Rattle.folder_files.specs.InfoFiles.{desktop_in};
ghost use Rattle.folder_files.specs.Slots.{AllRise, AreSlots, all_marks};
ghost use Rattle.desk_journal.specs.Overlays.{FinishesAs, StandsAs, finished};
ghost use Rattle.desk_store.specs.Bounds.{AreBounded};
ghost use Rattle.desk_store.specs.Desks.{IsDesk, IsJudged, IsReadable, ShowsDeskFault};
ghost use Rattle.desk_store.specs.Finds.{FindsAll, rows_count};
ghost use Rattle.desk_store.specs.Shelves.{AreInOrder, first_slots as untouched, infos_of, marks_of, slots_in, slots_or_first};

use crate::fault::DeskOpenFault;
use crate::reading::read_files;
use crate::slot::{DeskSlot, bare_slots, see_all_marks, unclaimed_info};
use desk_journal::finish_journal;
use folder_files::{DESKTOP_INFO, InfoFault, SlotInfo, read_desktop_info};
use hs_folders::{Folder, FolderFault};
use std::alloc::{AllocError, Global};

// The most files of rows that a folder may have.
const MOST: usize = 200;

// Finishes the journal, and reads the files that then stand: the information file first, which says how many slots there are.
pub(crate) fn open_files<F: Folder>(
    alloc: Global,
    folder: &mut F,
) -> Result<Vec<DeskSlot>, DeskOpenFault>
    ensures finished { IfOk result (λ slots. F.contents folder.new ≡ option_map finished
        (F.contents folder.old)) }
    ensures desk { IfOk result (λ slots. IsDesk (F.contents folder.new) slots.items) }
    ensures sound { IfOk result (λ slots. AreBounded slots.items) }
    ensures readable { IfOk result (λ slots. IfSome (F.contents folder.new) IsReadable) }
    ensures shown { IfErr result (λ fault. IfSome (F.contents folder.old)
        (λ held. ShowsDeskFault (finished held) fault)) }
    ensures judged { IfErr result (λ fault. IsJudged fault → F.contents folder.new
        ≡ option_map finished (F.contents folder.old)) }
    ensures cause { HasCause (F.faults folder.old) (F.faults folder.new)
        (IsErrOf result DeskOpenFault.DeskFault) }
    ensures stands { StandsAs (F.contents folder.old) (F.contents folder.new) }
    ensures each_moment { EachMomentSince (StandsAs (F.contents folder.old)) (F.moments folder.old)
        (F.moments folder.new) }
    ensures left { FinishesAs (F.contents folder.old) (F.contents folder.new) }
    ensures each_left { EachMomentSince (FinishesAs (F.contents folder.old)) (F.moments folder.old)
        (F.moments folder.new) }
    ensures paths { F.paths folder.new ≡ F.paths folder.old }
{
    finish_journal(alloc, folder)?;
    let names = folder.list(alloc)?;
    if count_rows(&names) > MOST {
        return Err(DeskOpenFault::TooMany);
    }
    let slots = read_slots(alloc, folder)?;
    let found = read_files(alloc, folder, &names, slots)?;
    Ok(found)
}

// The slots of the folder, without databases.
fn read_slots<F: Folder>(alloc: Global, folder: &mut F) -> Result<Vec<DeskSlot>, DeskOpenFault>
    ensures found { IfOk result (λ slots. IfSome (F.contents folder.old)
        (λ held. FindsAll held [] slots.items)) }
    ensures formed { IfOk result (λ slots. AreSlots (marks_of slots.items)) }
    ensures parted { IfOk result (λ slots. AllRise (infos_of slots.items)) }
    ensures ordered { IfOk result (λ slots. AreInOrder slots.items) }
    ensures bounded { IfOk result (λ slots. AreBounded slots.items) }
    ensures unjudged { IfErr result (λ fault. ¬ IsJudged fault) }
    ensures cause { HasCause (F.faults folder.old) (F.faults folder.new)
        (IsErrOf result DeskOpenFault.DeskFault) }
    ensures read { OnlyRead F.contents F.moments F.paths F.faults folder.old folder.new }
{
    let infos = read_infos(alloc, folder)?;
    see_all_marks(&infos);
    let slots = bare_slots(alloc, infos)?;
    Ok(slots)
}

// What the information file says of the slots; those of a desktop that no session touched where it is missing or bad.
fn read_infos<F: Folder>(alloc: Global, folder: &mut F) -> Result<Vec<SlotInfo>, DeskOpenFault>
    ensures slots { IfOk result (λ infos. IfSome (F.contents folder.old)
        (λ held. infos.items ≡ slots_in held)) }
    ensures formed { IfOk result (λ infos. AreSlots (all_marks infos.items)) }
    ensures parted { IfOk result (λ infos. AllRise infos.items) }
    ensures unjudged { IfErr result (λ fault. ¬ IsJudged fault) }
    ensures cause { HasCause (F.faults folder.old) (F.faults folder.new)
        (IsErrOf result DeskOpenFault.DeskFault) }
    ensures read { OnlyRead F.contents F.moments F.paths F.faults folder.old folder.new }
{
    match folder.read(alloc, DESKTOP_INFO) {
        Ok(bytes) => {
            let slots = info_slots(alloc, &bytes)?;
            Ok(slots)
        }
        Err(FolderFault::Missing) => {
            let slots = first_slots(alloc)?;
            Ok(slots)
        }
        Err(fault) => Err(DeskOpenFault::from(fault)),
    }
}

// The slots of an information file in its form, else those of a desktop that no session touched.
fn info_slots(alloc: Global, bytes: &[u8]) -> Result<Vec<SlotInfo>, AllocError>
    ensures slots { IfOk result (λ infos. infos.items
        ≡ slots_or_first (Some (desktop_in bytes.now))) }
    ensures formed { IfOk result (λ infos. AreSlots (all_marks infos.items)) }
    ensures parted { IfOk result (λ infos. AllRise infos.items) }
{
    match read_desktop_info(alloc, bytes) {
        Ok(infos) => Ok(infos),
        Err(InfoFault::Bad(_)) => first_slots(alloc),
        Err(InfoFault::NoMemory) => Err(AllocError),
    }
}

// The slots of a desktop that no session touched.
fn first_slots(alloc: Global) -> Result<Vec<SlotInfo>, AllocError>
    ensures slots { IfOk result (λ infos. infos.items ≡ untouched) }
    ensures formed { IfOk result (λ infos. AreSlots (all_marks infos.items)) }
    ensures parted { IfOk result (λ infos. AllRise infos.items) }
{
    let infos = vec![in alloc; unclaimed_info(alloc, 1)]?;
    Ok(infos)
}

// How many files hold rows.
fn count_rows(names: &[String]) -> usize
    ensures { result ≡ rows_count (map string_bytes names.now) }
{
    let mut count = 0;
    for name in names {
        count = count_more(count, name.as_str());
    }
    count
}

// One more where a file of this name holds rows.
fn count_more(count: usize, name: &str) -> usize
    requires { count < 2 ^ 63 }
    ensures count { result ≡ count + (if has_ending (codes ".pdb") name.now then 1 else 0) }
    ensures bound { result ≤ count + 1 }
{
    if name.as_bytes().ends_with(b".pdb") {
        count + 1
    } else {
        count
    }
}
