// A table in the making.
ghost use Rattle.std.specs.Prelude.{◌≡◌, ◌<◌, ◌≤◌, IfSome, map};
ghost use Rattle.category_tables.specs.Tables.{entry_value, table_value};
ghost use Rattle.category_tables.specs.Merges.{begun, by_id, by_label, filled, is_new, joined, kept_at, unused, with_entry};
ghost use Rattle.category_tables.specs.Makings.{merging_value};

use crate::place::{of_id, of_label, unused};
use crate::table::{Entry, NO_ENTRY, Table};

/// A table in the making, and where each number of the desktop's goes.
#[derive(Clone, Copy)]
pub struct Merging {
    pub entries: [Entry; 16],
    pub places: [u8; 16],
}

impl Merging {
    /// The handheld's entries, those that are not used made empty, and no number went anywhere yet.
    pub fn begin(handheld: &Table) -> Merging
        ensures { merging_value result ≡ begun (table_value handheld.now) }
    {
        let mut entries = [NO_ENTRY; 16];
        for number in 0..16 {
            entries[number] = kept_at(handheld, number);
        }
        Merging {
            entries,
            places: [0; 16],
        }
    }

    /// A number goes to the handheld's entry of its id, where there is one.
    pub fn join_by_id(&mut self, handheld: &Table, desktop: &Table, number: usize)
        requires some { 1 ≤ number }
        requires few { number < 16 }
        ensures { merging_value self.new
            ≡ by_id (table_value handheld.now) (table_value desktop.now) number (merging_value self.old) }
    {
        if desktop.is_used(number) {
            let place = of_id(&handheld.entries, desktop.entries[number].id);
            self.join(desktop, number, place);
        }
    }

    // A number goes to this place, which has the label that the desktop gave to it, where it renamed it.
    fn join(&mut self, desktop: &Table, number: usize, place: Option<usize>)
        requires few { number < 16 }
        requires there { IfSome place (λ place. place < 16) }
        ensures { merging_value self.new
            ≡ joined (table_value desktop.now) number place (merging_value self.old) }
    {
        if let Some(place) = place {
            if desktop.is_renamed(number) {
                self.entries[place].label = desktop.entries[number].label;
            }
            self.places[number] = place as u8;
        }
    }

    /// A used number whose id the handheld has not goes to its label, or fills an unused entry, where there is one.
    pub fn join_by_label(&mut self, handheld: &Table, desktop: &Table, number: usize)
        requires some { 1 ≤ number }
        requires few { number < 16 }
        ensures { merging_value self.new
            ≡ by_label (table_value handheld.now) (table_value desktop.now) number (merging_value self.old) }
    {
        if is_new(handheld, desktop, number) {
            self.place_label(&desktop.entries[number], number);
        }
    }

    /// A number goes to the least entry with its label, or fills an unused one.
    pub fn place_label(&mut self, entry: &Entry, number: usize)
        requires few { number < 16 }
        ensures { merging_value self.new
            ≡ with_entry (entry_value entry.now) number (merging_value self.old) }
    {
        match of_label(&self.entries, &entry.label) {
            Some(place) => self.places[number] = place as u8,
            None => self.fill(entry, number),
        }
    }

    // A number fills an unused entry, where there is one.
    fn fill(&mut self, entry: &Entry, number: usize)
        requires few { number < 16 }
        ensures { merging_value self.new ≡ filled (entry_value entry.now) number
            (unused (map entry_value self.old.entries)) (merging_value self.old) }
    {
        if let Some(place) = unused(&self.entries) {
            self.entries[place] = *entry;
            self.places[number] = place as u8;
        }
    }
}

// An entry of the handheld's, or an empty one where it is not used.
fn kept_at(handheld: &Table, number: usize) -> Entry
    requires { number < 16 }
    ensures { entry_value result ≡ kept_at (table_value handheld.now).entries number }
{
    if handheld.is_used(number) {
        handheld.entries[number]
    } else {
        NO_ENTRY
    }
}

// Whether a number is used, and the handheld has no entry of its id.
fn is_new(handheld: &Table, desktop: &Table, number: usize) -> bool
    requires { number < 16 }
    ensures { result ≡ is_new (table_value handheld.now) (table_value desktop.now) number }
{
    desktop.is_used(number) && of_id(&handheld.entries, desktop.entries[number].id).is_none()
}
