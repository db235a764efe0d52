// Where the labels of a database go in the table of another file.
ghost use Rattle.std.specs.Prelude.{◌≡◌, ◌<◌, ◌≤◌, ◌==◌, ◌↔◌, IsTrue, map};
ghost use Rattle.std.specs.List.{list_any};
ghost use Rattle.category_tables.specs.Likes as likes;
ghost use Rattle.category_tables.specs.Likes.{AllStand, AreSmall};
ghost use Rattle.category_tables.specs.Makings.{merging_value};
ghost use Rattle.category_tables.specs.Tables.{entry_value, table_value};

use crate::merging::Merging;
use crate::table::{Entry, Table};
use palm_records::until_zero;

// The least id of those that a desktop gives.
const FIRST_ID: u8 = 128;

// Whether an entry has this id.
fn has_entry_id(entries: &[Entry], id: u8) -> bool
    ensures { result ≡ list_any (λ entry. entry.id == id) entries.now }
{
    entries.iter().any(|entry| entry.id == id)
}

// Whether an entry has this id.
fn has_id(entries: &[Entry], id: u8) -> bool
    ensures { result ≡ likes.has_id (map entry_value entries.now) id }
{
    has_entry_id(entries, id)
}

// The first id that no entry has, of those that a desktop gives.
fn new_id(entries: &[Entry; 16]) -> u8
    ensures { result ≡ likes.new_id (map entry_value entries.now) }
{
    let mut id = FIRST_ID;
    for tried in 0..16 {
        let _tried: u32 = tried;
        if !has_id(entries, id) {
            return id;
        }
        id += 1;
    }
    id
}

// A number's label goes to the least entry that has it, or else fills an unused one.
fn join_like(merging: &mut Merging, made: &Table, number: usize)
    requires few { number < 16 }
    ensures { merging_value merging.new
        ≡ likes.by_like (table_value made.now) number (merging_value merging.old) }
{
    if made.is_used(number) {
        let entry = Entry {
            label: made.entries[number].label,
            id: new_id(&merging.entries),
        };
        merging.place_label(&entry, number);
    }
}

/// The entries of the other table with those of these labels, and where each number goes.
pub fn liking(other: &Table, made: &Table) -> Merging
    ensures merging { merging_value result ≡ likes.liking (table_value other.now) (table_value made.now) }
    ensures small { AreSmall result.places }
{
    let mut merging = Merging::begin(other);
    for number in 1..16 {
        join_like(&mut merging, made, number);
    }
    merging
}

// Whether a number's label, where it has one, stands where the number goes.
fn stands(made: &Table, merging: &Merging, number: usize) -> bool
    requires few { number < 16 }
    requires small { AreSmall merging.now.places }
    ensures { result ≡ likes.stands (table_value made.now) (merging_value merging.now) number }
{
    if !made.is_used(number) {
        return true;
    }
    let place = merging.places[number] as usize;
    until_zero(&merging.entries[place].label) == until_zero(&made.entries[number].label)
}

/// Whether each label found a number.
pub fn all_stand(made: &Table, merging: &Merging) -> bool
    requires { AreSmall merging.now.places }
    ensures { IsTrue result ↔ AllStand (table_value made.now) (merging_value merging.now) }
{
    for number in 1..16 {
        if !stands(made, merging, number) {
            return false;
        }
    }
    true
}
