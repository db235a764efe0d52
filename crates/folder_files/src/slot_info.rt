// What an information file says of a slot.

use crate::parted::Parted;
use pdb_values::Marks;
use std::marker::Model;

/// What a desktop's information file says of a slot.
#[derive(Drop)]
pub struct SlotInfo {
    /// What the desktop knows of the user of the slot.
    pub marks: Marks,
    /// The databases that took no part in the slot's last session, at most 400, in rising byte order of their stems.
    pub parted: Vec<Parted>,
}

impl Model for SlotInfo {
    ghost use Rattle.folder_files.specs.Slots.{SlotInfoValue};

    ghost Value = { SlotInfoValue };

    ghost view = { λ info. record { marks = info.marks; parted = info.parted.items } };
}
