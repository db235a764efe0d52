// A desktop's folder, opened.
ghost use Rattle.std.specs.Prelude.{◌≡◌, ◌<◌, ◌≤◌, ◌⊎◌, ◌↔◌, IsTrue, IfErr, IfOk, IfSome, IsErrAnd, OnErr, Some, length, map, min, slice_get, vec_len};
ghost use Rattle.std.specs.FinMap as finmap;
ghost use Rattle.std.specs.Option.{option_copied, option_map};
ghost use Rattle.hs_folders.specs.Causes.{HasCause};
ghost use Rattle.hs_folders.specs.Moments.{EachMomentSince};
ghost use Rattle.pdb_values.specs.NamedDatabases.{NamesRise, database_of};
ghost use Rattle.folder_files.specs.Partings as partings;
ghost use Rattle.folder_files.specs.Partings.{PartedRise};
ghost use Rattle.folder_files.specs.Slots.{AreSlots};
ghost use Rattle.desk_journal.specs.Overlays.{FinishesAs, StandsAs, finished};
ghost use Rattle.desk_journal.specs.Steps.{GoesThrough, GoesThroughAll};
ghost use Rattle.desk_store.specs.Bounds.{AreBounded};
ghost use Rattle.desk_store.specs.Changes.{AreChanged, IsDeskChange, MayBear, files_with, steps_of, with_commit};
ghost use Rattle.desk_store.specs.Desks.{IsDesk, IsJudged, IsOpenable, IsPickable, IsReadable, ShowsDeskFault, StaysOpenable, all_rows, place_of};
ghost use Rattle.desk_store.specs.Finds.{rows_count};
ghost use Rattle.desk_store.specs.Shelves.{marks_of, number_of};
ghost use Rattle.desk_store.specs.Views.{folder_in, marks_in, parted_in, picked_slot, shelves_in};

use crate::bearing::may_bear;
use crate::change::DeskChange;
use crate::commit::write_change;
use crate::fault::{CommitFault, DeskOpenFault};
use crate::opening::open_files;
use crate::role::Role;
use crate::slot::{DeskSlot, all_marks};
use folder_files::{Parted, Parting, parting_of};
use hs_folders::Folder;
use pdb_values::{Database, DbName, Marks, Slot};
use std::alloc::{AllocError, Global};
use std::marker::Model;

/// A desktop's folder with all that it holds. One of its slots is picked, slot 0 after opening.
#[derive(Drop)]
pub struct Desk<F: Folder> {
    alloc: Global,
    folder: F,
    slots: Vec<DeskSlot>,
    picked: usize,
    newcomer: DeskSlot,
}

impl<F: Folder> Model for Desk<F> {
    ghost use Rattle.std.specs.Prelude.{◌≡◌};
    ghost use Rattle.desk_store.specs.Desks.{IsDesk, IsPlace};
    ghost use Rattle.desk_store.specs.Shelves.{new_slot, number_of};
    ghost use Rattle.desk_store.specs.Views.{DeskValue};

    ghost Value = { DeskValue F };

    ghost view = { λ desk. record {
      folder = desk.folder;
      slots = desk.slots.items;
      picked = desk.picked;
    } };

    ghost invariant = { λ desk. IsDesk (F.contents desk.folder) desk.slots.items
        × IsPlace desk.slots.items desk.picked
        × (desk.newcomer ≡ new_slot (number_of desk.slots.items)) };
}

impl<F: Folder> Desk<F> {
    /// Opens a folder as a desktop: finishes the journal of an earlier change, and reads each file. A refusal hands the
    /// folder back.
    pub fn open(alloc: Global, folder: F) -> Result<Desk<F>, (DeskOpenFault, F)>
        // The journal is finished, and the desktop has what the folder then holds. Slot 0 is picked.
        ensures opened { IfOk result (λ desk. F.contents desk.folder ≡ option_map finished
            (F.contents folder)) }
        ensures desk { IfOk result (λ desk. IsDesk (F.contents desk.folder) desk.slots) }
        ensures picked { IfOk result (λ desk. desk.picked ≡ 0) }
        // Whatever the folder tells, each slot has marks, rows, base rows and archives within the bounds of their types.
        ensures sound { IfOk result (λ desk. AreBounded desk.slots) }

        // Which answer comes.
        ensures readable { IfOk result (λ desk. IfSome (F.contents desk.folder) IsReadable) }
        ensures shown { IfErr result (λ refusal. IfSome (F.contents folder)
            (λ held. ShowsDeskFault (finished held) refusal.0)) }
        ensures cause { HasCause (F.faults folder) (F.faults (folder_in result))
            (IsErrAnd result (λ refusal. refusal.0 ≡ DeskOpenFault.DeskFault)) }

        // What is judged is the folder once the journal is finished: it holds these files then, and no journal but a bad one.
        ensures judged { IfErr result (λ refusal. IsJudged refusal.0 → F.contents refusal.1
            ≡ option_map finished (F.contents folder)) }

        // What the folder stands for stays, at each moment and whatever the answer.
        ensures stands { StandsAs (F.contents folder) (F.contents (folder_in result)) }
        ensures each_moment { EachMomentSince (StandsAs (F.contents folder)) (F.moments folder)
            (F.moments (folder_in result)) }
        // And finishing the journal that is left then leaves the same files. So where it can be opened, it stays so.
        ensures left { FinishesAs (F.contents folder) (F.contents (folder_in result)) }
        ensures each_left { EachMomentSince (FinishesAs (F.contents folder)) (F.moments folder)
            (F.moments (folder_in result)) }
        ensures openable { IfSome (F.contents folder) IsOpenable → StaysOpenable
            (F.contents (folder_in result)) (F.moments folder) (F.moments (folder_in result)) }
        ensures paths { F.paths (folder_in result) ≡ F.paths folder }
    {
        let mut folder = folder;
        match open_files(alloc, &mut folder) {
            Ok(slots) => {
                let newcomer = DeskSlot::unclaimed(alloc, slots[0].marks.pc);
                Ok(Desk {
                    alloc,
                    folder,
                    slots,
                    picked: 0,
                    newcomer,
                })
            }
            Err(fault) => Err((fault, folder)),
        }
    }

    /// Picks a slot: an old one that is there, or a new one where there are fewer than sixteen. The other calls speak of it
    /// from then on. A new one has no user and no database, and comes into the folder with its first commit.
    pub fn pick(&mut self, slot: Slot)
        requires { IsPickable (length self.old.slots) slot }
        ensures { self.new ≡ record self.old { picked = place_of (length self.old.slots) slot } }
    {
        self.picked = match slot {
            Slot::Old(place) => place,
            Slot::New | Slot::Refused | Slot::Full => self.slots.len(),
        };
    }

    /// Carries out a change of the picked slot: replaces the files of each database in order of names, its rows, its base
    /// rows and its archive where one is given, and then the information file, all of them or none. Files that have their new
    /// bytes already are left alone.
    ///
    /// The marks bear the desktop's number, and a user that no other slot has, 0 only in slot 0. At most 400 databases took no
    /// part, in rising byte order of their stems. At most 200 databases change, in rising byte order of their names, which
    /// differ. The rows, base rows and archive of one change hold records under one name, and an archive has an entry. A
    /// refusal hands the folder back; opening it again finishes what was begun.
    pub fn commit(self, change: DeskChange) -> Result<Desk<F>, (CommitFault, F)>
        requires change { IsDeskChange change }
        requires marks { MayBear self.slots self.picked change.marks }

        // The folder holds the files of the change, and all others as they were.
        ensures written { IfOk result (λ desk. F.contents desk.folder ≡
            files_with change self.picked self.slots (F.contents self.folder)) }
        // The picked slot has the marks and databases of the change, keeps which took no part, and has its other databases as
        // they were. All other slots are as they were, and the desktop is what the folder then stands for.
        ensures slots { IfOk result (λ desk. desk.slots
            ≡ with_commit change self.picked self.slots) }
        ensures picked { IfOk result (λ desk. desk.picked ≡ self.picked) }
        ensures desk { IfOk result (λ desk. IsDesk (F.contents desk.folder) desk.slots) }
        ensures marks { IfOk result (λ desk. marks_in desk ≡ change.marks) }
        ensures parted { IfOk result (λ desk. parted_in desk ≡ change.parted.items) }
        ensures databases { IfOk result (λ desk.
            AreChanged change.databases.items (shelves_in self) (shelves_in desk)) }

        // After a refusal the folder stands for what it stood for, or for the whole change.
        ensures refused { OnErr result (StandsAs (F.contents self.folder)
            (F.contents (folder_in result))
            ⊎ StandsAs
            (files_with change self.picked self.slots (F.contents self.folder))
            (F.contents (folder_in result))) }
        // The folder is as it was, or with the files of the change it is that of a desktop with the change.
        ensures made { (folder_in result ≡ self.folder) ⊎ IsDesk
            (files_with change self.picked self.slots (F.contents self.folder))
            (with_commit change self.picked self.slots) }
        // From the first moment of the call on it stands for the whole change.
        ensures each_moment { EachMomentSince (StandsAs
            (files_with change self.picked self.slots (F.contents self.folder)))
            (F.moments self.folder) (F.moments (folder_in result)) }

        // Whatever was left, once the journal is finished the files are those from before, or those of the whole change.
        ensures left { FinishesAs (F.contents self.folder) (F.contents (folder_in result))
            ⊎ FinishesAs
            (files_with change self.picked self.slots (F.contents self.folder))
            (F.contents (folder_in result)) }
        ensures each_left { EachMomentSince (FinishesAs
            (files_with change self.picked self.slots (F.contents self.folder)))
            (F.moments self.folder) (F.moments (folder_in result)) }
        // So the folder can be opened, where neither desktop has more than 200 databases.
        ensures openable { all_rows self.slots ≤ 200
            → all_rows (with_commit change self.picked self.slots) ≤ 200 → StaysOpenable
            (F.contents (folder_in result)) (F.moments self.folder)
            (F.moments (folder_in result)) }

        // The moments of the call: it writes no file that has its bytes already, and each other one in order, by way of a
        // journal where there is more than one.
        ensures steps { IfSome (F.contents self.folder) (λ held. GoesThrough
            (steps_of change self.picked self.slots held) (Some held)
            (F.contents (folder_in result)) (F.moments self.folder)
            (F.moments (folder_in result))) }
        ensures all { IfOk result (λ desk. IfSome (F.contents self.folder) (λ held. GoesThroughAll
            (steps_of change self.picked self.slots held) (F.moments self.folder)
            (F.moments desk.folder))) }
        ensures cause { HasCause (F.faults self.folder) (F.faults (folder_in result))
            (IsErrAnd result (λ refusal. refusal.0 ≡ CommitFault.DeskFault)) }
        ensures paths { F.paths (folder_in result) ≡ F.paths self.folder }
    {
        let Desk {
            alloc,
            folder,
            slots,
            picked,
            newcomer,
        } = self;
        let mut folder = folder;
        match write_change(alloc, &mut folder, slots, picked, newcomer, change) {
            Ok(slots) => {
                let newcomer = DeskSlot::unclaimed(alloc, slots[0].marks.pc);
                Ok(Desk {
                    alloc,
                    folder,
                    slots,
                    picked,
                    newcomer,
                })
            }
            Err(fault) => Err((fault, folder)),
        }
    }

    /// The marks of the slots, in the order of their numbers: 1 to 16, whose users all differ, and only the first may be 0.
    pub fn all_marks(&self, alloc: Global) -> Result<Vec<Marks>, AllocError>
        ensures marks { IfOk result (λ marks. marks.items ≡ marks_of self.now.slots) }
        ensures count { IfOk result (λ marks. vec_len marks ≡ length self.now.slots) }
        ensures formed { AreSlots (marks_of self.now.slots) }
    {
        all_marks(alloc, &self.slots)
    }

    // The picked slot.
    #[tactic(auto, using(crate::proofs::OpenLaws::picked_number, crate::proofs::OpenLaws::picked_rise, crate::proofs::OpenLaws::picked_parted))]
    fn slot(&self) -> &DeskSlot
        ensures slot { result.now ≡ picked_slot self.now }
        ensures number { (marks_in self.now).pc ≡ number_of self.now.slots }
        ensures rise { NamesRise (shelves_in self.now).rows }
        ensures parted { PartedRise (parted_in self.now) }
    {
        match self.slots.get(self.picked) {
            Some(slot) => slot,
            None => &self.newcomer,
        }
    }

    /// Whether the picked slot may get these marks: they bear the desktop's number, and a user that no other slot has, 0 only
    /// in slot 0.
    pub fn may_bear(&self, marks: &Marks) -> bool
        ensures { IsTrue result ↔ MayBear self.now.slots self.now.picked marks.now }
    {
        may_bear(&self.slots, self.picked, marks)
    }

    /// The marks. They bear the desktop's number.
    pub fn marks(&self) -> &Marks
        ensures marks { result.now ≡ marks_in self.now }
        ensures number { result.now.pc ≡ number_of self.now.slots }
    {
        &self.slot().marks
    }

    /// The databases that took no part in the last session of the slot. Their stems rise in byte order.
    pub fn parted(&self) -> &[Parted]
        ensures parted { result.now ≡ parted_in self.now }
        ensures rise { PartedRise result.now }
    {
        &self.slot().parted
    }

    /// What is kept of the database of this name: why it took no part in the last session of the slot, or None where it took
    /// part.
    pub fn parting(&self, name: &DbName) -> Option<Parting>
        ensures { result ≡ partings.parting_of name.now (parted_in self.now) }
    {
        parting_of(self.parted(), name)
    }

    /// How many databases have rows in all slots, which is the number of files of rows; the greatest number, were there more.
    #[tactic(auto, using(crate::proofs::CountLaws::told_number, crate::proofs::OpenableLaws::told_openable))]
    pub fn all_len(&self) -> usize
        ensures count { result ≡ min (all_rows self.now.slots) usize.MAX }
        ensures number { IfSome (F.contents self.now.folder)
            (λ held. all_rows self.now.slots ≡ rows_count (finmap.keys held)) }
        // With at most 200 the folder can be opened again.
        ensures openable { all_rows self.now.slots ≤ 200
            → IfSome (F.contents self.now.folder) IsOpenable }
    {
        count_rows(&self.slots)
    }

    /// How many databases have rows.
    pub fn len(&self) -> usize
        ensures { result ≡ length (shelves_in self.now).rows }
    {
        self.slot().shelves.rows.len()
    }

    /// The name of a database that has rows. Names stand in rising byte order, and None is answered exactly past the last
    /// one.
    pub fn name(&self, index: usize) -> Option<&DbName>
        ensures name { option_copied result ≡ option_map (λ database. database.head.name)
            (slice_get (shelves_in self.now).rows index) }
        ensures rise { NamesRise (shelves_in self.now).rows }
    {
        self.slot().name(index)
    }

    /// The rows of the database of this name.
    pub fn rows(&self, name: &DbName) -> Option<&Database>
        ensures { option_copied result ≡ database_of name.now (shelves_in self.entry.now).rows }
    {
        self.slot().shelves.database(Role::Rows, name)
    }

    /// The base rows of the database of this name, live and gone ones.
    pub fn base(&self, name: &DbName) -> Option<&Database>
        ensures { option_copied result ≡ database_of name.now (shelves_in self.entry.now).bases }
    {
        self.slot().shelves.database(Role::Base, name)
    }

    /// What was archived of the database of this name.
    pub fn archive(&self, name: &DbName) -> Option<&Database>
        ensures { option_copied result ≡ database_of name.now (shelves_in self.entry.now).archives }
    {
        self.slot().shelves.database(Role::Archive, name)
    }

    /// The folder.
    pub fn into_folder(self) -> F
        ensures { result ≡ self.folder }
    {
        let Desk { folder, .. } = self;
        folder
    }
}

// How many databases have rows in these slots.
fn count_rows(slots: &[DeskSlot]) -> usize
    ensures { result ≡ min (all_rows slots.now) usize.MAX }
{
    let mut count = 0usize;
    for slot in slots {
        count = count.saturating_add(slot.shelves.rows.len());
    }
    count
}
