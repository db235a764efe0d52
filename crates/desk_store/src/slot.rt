// A slot of a desktop: one user with databases of its own.
ghost use Rattle.std.specs.Prelude.{◌≡◌, [], IfOk, length, map, slice_get, vec_len};
ghost use Rattle.std.specs.Option.{option_copied, option_map};
ghost use Rattle.folder_files.specs.InfoFiles.{plain_info};
ghost use Rattle.std.specs.List.{AllByRecursion};
ghost use Rattle.desk_store.specs.Bounds.{AreBoundedMarks};
ghost use Rattle.desk_store.specs.Shelves.{bare_slot, infos_of as infos_in, marks_of as marks_in, new_slot};

use crate::bounds::see_marks;
use crate::shelves::Shelves;
use folder_files::{Parted, SlotInfo, same_parted};
use pdb_values::{DbName, Marks, PalmDate, UserName};
use std::alloc::{AllocError, Global};
use std::marker::Model;

// What the desktop knows of the user of a slot, the databases that took no part in its last session, and the databases of
// that user.
#[derive(Drop)]
pub(crate) struct DeskSlot {
    pub(crate) marks: Marks,
    pub(crate) parted: Vec<Parted>,
    pub(crate) shelves: Shelves,
}

impl Model for DeskSlot {
    ghost use Rattle.desk_store.specs.Shelves.{SlotValue};

    ghost Value = { SlotValue };

    ghost view = { λ slot. record {
      marks = slot.marks;
      parted = slot.parted.items;
      shelves = slot.shelves;
    } };
}

impl DeskSlot {
    // A slot without a database, of which an information file says this.
    pub(crate) fn bare(alloc: Global, info: SlotInfo) -> DeskSlot
        ensures { result ≡ bare_slot info }
    {
        let SlotInfo { marks, parted } = info;
        DeskSlot {
            marks,
            parted,
            shelves: Shelves::new(alloc),
        }
    }

    // A slot without a database and without a user, on the desktop with this number.
    pub(crate) fn unclaimed(alloc: Global, pc: u32) -> DeskSlot
        ensures { result ≡ new_slot pc }
    {
        DeskSlot::bare(alloc, unclaimed_info(alloc, pc))
    }

    // The name of a database that has rows, by its place among them.
    pub(crate) fn name(&self, index: usize) -> Option<&DbName>
        ensures { option_copied result ≡ option_map (λ database. database.head.name)
            (slice_get self.now.shelves.rows index) }
    {
        match self.shelves.rows.get(index) {
            Some(database) => Some(&database.head().name),
            None => None,
        }
    }
}

// What is known of no user.
fn unclaimed_marks(pc: u32) -> Marks
    ensures { result ≡ record { pc = pc; user = 0; last = 0; name = [] } }
{
    Marks {
        pc,
        user: 0,
        last: PalmDate::of_seconds(0),
        name: UserName::new(&[]).unwrap(),
    }
}

// What an information file says of a slot without a user: each database took part in its last session.
pub(crate) fn unclaimed_info(alloc: Global, pc: u32) -> SlotInfo
    ensures { result ≡ plain_info (record { pc = pc; user = 0; last = 0; name = [] }) }
{
    SlotInfo {
        marks: unclaimed_marks(pc),
        parted: Vec::new(alloc),
    }
}

// What is known of users is within bounds.
pub(crate) fn see_all_marks(infos: &[SlotInfo])
    ensures { AllByRecursion (λ info. AreBoundedMarks info.marks) infos.now }
{
    for info in infos {
        see_marks(&info.marks);
    }
}

// Slots without databases.
pub(crate) fn bare_slots(alloc: Global, infos: Vec<SlotInfo>) -> Result<Vec<DeskSlot>, AllocError>
    ensures { IfOk result (λ slots. slots.items ≡ map bare_slot infos.items) }
{
    infos
        .into_iter()
        .map(|info| DeskSlot::bare(alloc, info))
        .collect(alloc)
}

// What an information file says of each slot.
pub(crate) fn infos_of(alloc: Global, slots: &[DeskSlot]) -> Result<Vec<SlotInfo>, AllocError>
    ensures { IfOk result (λ infos. infos.items ≡ infos_in slots.now) }
{
    let mut infos = Vec::new(alloc);
    for slot in slots {
        let parted = same_parted(alloc, &slot.parted)?;
        let marks = same_marks(&slot.marks);
        infos.push(SlotInfo { marks, parted })?;
    }
    Ok(infos)
}

// What is known of the users of slots.
pub(crate) fn all_marks(alloc: Global, slots: &[DeskSlot]) -> Result<Vec<Marks>, AllocError>
    ensures marks { IfOk result (λ marks. marks.items ≡ marks_in slots.now) }
    ensures count { IfOk result (λ marks. vec_len marks ≡ length slots.now) }
{
    let mut marks = Vec::new(alloc);
    for slot in slots {
        marks.push(same_marks(&slot.marks))?;
    }
    Ok(marks)
}

// What is known of a user, once more.
fn same_marks(marks: &Marks) -> Marks
    ensures { result ≡ marks.now }
{
    Marks {
        pc: marks.pc,
        user: marks.user,
        last: marks.last,
        name: marks.name.copy(),
    }
}
