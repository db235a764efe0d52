// The handles of open databases.
ghost use Rattle.std.specs.Prelude.{◌≡◌, ◌+◌, ◌<◌, ◌≤◌, IfSome, IsSome, Some, length};
ghost use Rattle.std.specs.Option.{option_map};
ghost use Rattle.palm_device.specs.Handles as handles;

use crate::opened::Opened;
use std::marker::Model;

/// The handles 1 to 8 of a device, each with what is open under it.
#[derive(Drop)]
pub struct Handles {
    slots: [Option<Opened>; 8],
}

impl Model for Handles {
    ghost use Rattle.std.specs.Prelude.{List, Option};
    ghost use Rattle.palm_device.specs.declared.opened.Opened.{Opened};

    ghost Value = { List (Option Opened) };

    ghost view = { λ handles. handles.slots };
}

impl Handles {
    /// How many databases can be open at a time.
    pub const COUNT: usize = 8;

    /// With nothing open.
    pub fn new() -> Handles
        ensures { result ≡ handles.no_handles }
    {
        Handles {
            slots: [None, None, None, None, None, None, None, None],
        }
    }

    /// What is open under a handle.
    pub fn opened_at(&self, handle: u8) -> Option<&Opened>
        ensures opened { option_map (λ opened. opened.now) result
            ≡ handles.opened_at handle self.now }
        ensures handle { IfSome result (λ _. (0 < handle) × (handle ≤ 8)) }
    {
        if handle == 0 {
            return None;
        }
        self.slots.get(handle as usize - 1)?.as_ref()
    }

    /// Whether the database of this name is open.
    pub fn is_open(&self, name: &[u8]) -> bool
        ensures { result ≡ handles.is_open name.now self.now }
    {
        place_open(&self.slots, name).is_some()
    }

    /// The least handle under which nothing is open.
    pub fn least_free(&self) -> Option<u8>
        ensures free { result ≡ handles.free_handle self.now }
        ensures handle { IfSome result (λ handle. (0 < handle) × (handle ≤ 8)) }
    {
        match free_place(&self.slots) {
            Some(place) => Some(place as u8 + 1),
            None => None,
        }
    }

    /// Opens something under a handle, or closes it. All other handles stay.
    pub fn set(&mut self, handle: u8, opened: Option<Opened>)
        requires some { 0 < handle }
        requires handle { handle ≤ 8 }
        ensures { self.new ≡ handles.with_handle handle opened self.old }
    {
        self.slots[handle as usize - 1] = opened;
    }

    /// Closes all.
    pub fn close_all(&mut self)
        ensures { self.new ≡ handles.no_handles }
    {
        *self = Handles::new();
    }
}

// Whether a database of this name is open there.
fn opens(slot: &Option<Opened>, name: &[u8]) -> bool
    ensures { result ≡ handles.opens name.now slot.now }
{
    match slot {
        None => false,
        Some(opened) => opened.name.as_bytes() == name,
    }
}

// The first place at which nothing is open.
fn free_place(slots: &[Option<Opened>]) -> Option<usize>
    ensures free { result ≡ handles.least_free slots.now }
    ensures within { IfSome result (λ place. place < length slots.now) }
{
    slots.iter().position(|slot| slot.is_none())
}

// Where a database of this name is open.
fn place_open(slots: &[Option<Opened>], name: &[u8]) -> Option<usize>
    ensures { result ≡ handles.place_open name.now slots.now }
{
    slots.iter().position(|slot| opens(slot, name))
}
