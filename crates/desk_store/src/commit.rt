// Carrying out a change.
ghost use Rattle.std.specs.Prelude.{◌≡◌, ◌≤◌, ◌⊎◌, ◌++◌, ◌∷◌, [], IfOk, IfSome, IsErrOf, OnErr, OnOk, Some};
ghost use Rattle.std.specs.List.{AllByRecursion};
ghost use Rattle.hs_folders.specs.Causes.{HasCause};
ghost use Rattle.hs_folders.specs.Moments.{EachMomentSince};
ghost use Rattle.folder_files.specs.InfoFiles.{IsDesktopFile, desktop_text};
ghost use Rattle.folder_files.specs.Slots.{AllRise, AreSlots};
ghost use Rattle.desk_journal.specs.Entries.{entry_values};
ghost use Rattle.desk_journal.specs.Overlays.{FinishesAs, StandsAs};
ghost use Rattle.desk_journal.specs.Steps.{GoesThrough, GoesThroughAll};
ghost use Rattle.desk_store.specs.Changes as changes;
ghost use Rattle.desk_store.specs.Changes.{IsDbWritten, IsDeskChange, MayBear, steps_of, with_commit};
ghost use Rattle.desk_store.specs.Desks.{IsDesk, IsPlace};
ghost use Rattle.desk_store.specs.Shelves.{infos_of as infos_in, marks_of as marks_in, new_slot, number_of};

use crate::change::{DeskChange, put_changes};
use crate::entries::{database_entries, slots_entry};
use crate::fault::CommitFault;
use crate::slot::{DeskSlot, infos_of};
use desk_journal::{Entry, commit_files};
use hs_folders::Folder;
use std::alloc::{AllocError, Global};

// Writes a change of the slot at this place into the folder, and hands the slots of the desktop back.
pub(crate) fn write_change<F: Folder>(
    alloc: Global,
    folder: &mut F,
    slots: Vec<DeskSlot>,
    place: usize,
    newcomer: DeskSlot,
    change: DeskChange,
) -> Result<Vec<DeskSlot>, CommitFault>
    requires desk { IsDesk (F.contents folder.old) slots.items }
    requires place { IsPlace slots.items place }
    requires newcomer { newcomer ≡ new_slot (number_of slots.items) }
    requires change { IsDeskChange change }
    requires marks { MayBear slots.items place change.marks }

    ensures written { OnOk result (F.contents folder.new ≡
        changes.files_with change place slots.items (F.contents folder.old)) }
    ensures slots { IfOk result (λ after. after.items ≡ with_commit change place slots.items) }
    ensures desk { IfOk result (λ after. IsDesk (F.contents folder.new) after.items) }

    ensures refused { OnErr result (StandsAs (F.contents folder.old) (F.contents folder.new)
        ⊎ StandsAs
        (changes.files_with change place slots.items (F.contents folder.old))
        (F.contents folder.new)) }
    ensures made { (folder.new ≡ folder.old) ⊎ IsDesk
        (changes.files_with change place slots.items (F.contents folder.old))
        (with_commit change place slots.items) }
    ensures each_moment { EachMomentSince (StandsAs
        (changes.files_with change place slots.items (F.contents folder.old)))
        (F.moments folder.old) (F.moments folder.new) }
    ensures left { FinishesAs (F.contents folder.old) (F.contents folder.new)
        ⊎ FinishesAs
        (changes.files_with change place slots.items (F.contents folder.old))
        (F.contents folder.new) }
    ensures each_left { EachMomentSince (FinishesAs
        (changes.files_with change place slots.items (F.contents folder.old)))
        (F.moments folder.old) (F.moments folder.new) }
    ensures steps { IfSome (F.contents folder.old) (λ held. GoesThrough
        (steps_of change place slots.items held) (Some held) (F.contents folder.new)
        (F.moments folder.old) (F.moments folder.new)) }
    ensures all { OnOk result (IfSome (F.contents folder.old) (λ held. GoesThroughAll
        (steps_of change place slots.items held) (F.moments folder.old) (F.moments folder.new))) }
    ensures cause { HasCause (F.faults folder.old) (F.faults folder.new)
        (IsErrOf result CommitFault.DeskFault) }
    ensures paths { F.paths folder.new ≡ F.paths folder.old }
{
    let (entries, after) = files_of_change(alloc, slots, place, newcomer, change)?;
    commit_files(alloc, folder, entries)?;
    Ok(after)
}

// The files that a change of the slot at this place writes, and the slots of the desktop after it.
fn files_of_change(
    alloc: Global,
    slots: Vec<DeskSlot>,
    place: usize,
    newcomer: DeskSlot,
    change: DeskChange,
) -> Result<(Vec<Entry>, Vec<DeskSlot>), AllocError>
    requires formed { AreSlots (marks_in slots.items) }
    requires parted { AllRise (infos_in slots.items) }
    requires change { IsDeskChange change }
    requires place { IsPlace slots.items place }
    requires newcomer { newcomer ≡ new_slot (number_of slots.items) }
    requires marks { MayBear slots.items place change.marks }
    ensures entries { IfOk result (λ made. entry_values made.0.items
        ≡ changes.change_entries change place slots.items) }
    ensures slots { IfOk result (λ made. made.1.items ≡ with_commit change place slots.items) }
    ensures written { OnOk result (AllByRecursion IsDbWritten change.databases.items) }
    ensures text { OnOk result (IsDesktopFile (infos_in (with_commit change place slots.items))
        (desktop_text (infos_in (with_commit change place slots.items)))) }
{
    let mut entries = database_entries(alloc, place, &change.databases)?;
    let after = put_change(slots, place, newcomer, change)?;
    push_slots(alloc, &mut entries, &after)?;
    Ok((entries, after))
}

// Appends the information file.
fn push_slots(alloc: Global, entries: &mut Vec<Entry>, slots: &[DeskSlot]) -> Result<(), AllocError>
    requires formed { AreSlots (marks_in slots.now) }
    requires parted { AllRise (infos_in slots.now) }
    ensures entries { OnOk result (entry_values entries.new.items
        ≡ entry_values entries.old.items ++ changes.slots_entry (infos_in slots.now) ∷ []) }
    ensures written { OnOk result (IsDesktopFile (infos_in slots.now)
        (desktop_text (infos_in slots.now))) }
{
    let infos = infos_of(alloc, slots)?;
    let entry = slots_entry(alloc, &infos)?;
    entries.push(entry)?;
    Ok(())
}

// Puts a change into the slot at this place, which may be the new one behind the last.
fn put_change(
    slots: Vec<DeskSlot>,
    place: usize,
    newcomer: DeskSlot,
    change: DeskChange,
) -> Result<Vec<DeskSlot>, AllocError>
    requires place { IsPlace slots.items place }
    requires newcomer { newcomer ≡ new_slot (number_of slots.items) }
    ensures { IfOk result (λ after. after.items ≡ with_commit change place slots.items) }
{
    let mut slots = slots;
    if place == slots.len() {
        slots.push(newcomer)?;
    }
    let DeskChange {
        marks,
        parted,
        databases,
    } = change;
    let slot = &mut slots[place];
    slot.marks = marks;
    slot.parted = parted;
    put_changes(&mut slot.shelves, databases)?;
    Ok(slots)
}
