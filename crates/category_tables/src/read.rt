// A table from bytes.
ghost use Rattle.std.specs.Prelude.{◌≡◌, ◌<◌, ◌≤◌, ◌↔◌, All, IsTrue, MatchOption, length};
ghost use Rattle.category_tables.specs.Tables.{entry_value, table_value};
ghost use Rattle.category_tables.specs.Texts.{HoldsTable, entry_in, table_in};
ghost use Rattle.category_tables.specs.Owned.{AreOwned, HasEnd, is_found, is_owned};

use crate::place::of_id;
use crate::table::{Entry, NO_ENTRY, Table};
use palm_records::until_zero;

/// The table at the head of an app block, if there is one: its 276 bytes are there, each label ends in its 16 bytes, and
/// the ids of the used categories from number 1 on are not 0, and differ. The last of these bytes is not looked at.
pub fn read_table(bytes: &[u8]) -> Option<Table>
    ensures { MatchOption result (¬ HoldsTable bytes.now)
        (λ table. HoldsTable bytes.now × (table_value table ≡ table_in bytes.now)) }
{
    if bytes.len() < 276 {
        return None;
    }
    let table = table_in(bytes);
    if have_ends(&table.entries) && are_owned(&table) {
        Some(table)
    } else {
        None
    }
}

// What stands in the 276 bytes.
fn table_in(bytes: &[u8]) -> Table
    requires { 276 ≤ length bytes.now }
    ensures { table_value result ≡ table_in bytes.now }
{
    let mut entries = [NO_ENTRY; 16];
    for number in 0..16 {
        entries[number] = entry_in(bytes, number);
    }
    Table {
        flags: u16::from(bytes[0]) * 256 + u16::from(bytes[1]),
        entries,
        last: bytes[274],
    }
}

// A label of 16 bytes, and an id.
fn entry_in(bytes: &[u8], number: usize) -> Entry
    requires long { 276 ≤ length bytes.now }
    requires few { number < 16 }
    ensures { entry_value result ≡ entry_in bytes.now number }
{
    let begin = 2 + 16 * number;
    let mut label = [0; 16];
    label.copy_from_slice(&bytes[begin..begin + 16]);
    Entry {
        label,
        id: bytes[258 + number],
    }
}

// Whether each label ends in its 16 bytes.
fn have_ends(entries: &[Entry]) -> bool
    ensures { IsTrue result ↔ All HasEnd entries.now }
{
    entries
        .iter()
        .all(|entry| until_zero(&entry.label).len() < 16)
}

// Whether each used category from number 1 on is the first one with its id, which is not 0.
fn are_owned(table: &Table) -> bool
    ensures { IsTrue result ↔ AreOwned (table_value table.now) }
{
    for number in 1..16 {
        if table.is_used(number) && !is_owned(table, number) {
            return false;
        }
    }
    true
}

// Whether a category is the first one with its id, which is not 0.
fn is_owned(table: &Table, number: usize) -> bool
    requires { number < 16 }
    ensures { result ≡ is_owned (table_value table.now) number }
{
    let id = table.entries[number].id;
    is_found(id, number, of_id(&table.entries, id))
}

// Whether an id is not 0, and was found at this number.
fn is_found(id: u8, number: usize, place: Option<usize>) -> bool
    ensures { result ≡ is_found id number place }
{
    match place {
        Some(place) => id != 0 && place == number,
        None => false,
    }
}
