// The merge of two tables.
ghost use Rattle.std.specs.Prelude.{◌≡◌, map};
ghost use Rattle.category_tables.specs.Tables.{entry_value, table_value};
ghost use Rattle.category_tables.specs.Merges.{greatest, merged_table, merging, places_of};
ghost use Rattle.category_tables.specs.Makings.{merging_value};

use crate::merging::Merging;
use crate::table::{Entry, Table};

/// The table that both sides have once their categories are brought together, and where each number of the desktop's goes
/// in it: to the handheld's entry of its id, which takes the label that the desktop gave it; else to the least entry with
/// its label; else to the least unused number, which it fills; and where none is left to 0, the category without a name.
pub fn merge(handheld: &Table, desktop: &Table) -> (Table, [u8; 16])
    ensures table { table_value result.0
        ≡ merged_table (table_value handheld.now) (table_value desktop.now) }
    ensures places { result.1 ≡ places_of (table_value handheld.now) (table_value desktop.now) }
{
    let made = joined(handheld, desktop);
    let table = Table {
        flags: 0,
        entries: made.entries,
        last: greatest(handheld.last.max(desktop.last), &made.entries),
    };
    (table, made.places)
}

// Each number by its id, and then those that are left by their labels.
fn joined(handheld: &Table, desktop: &Table) -> Merging
    ensures { merging_value result ≡ merging (table_value handheld.now) (table_value desktop.now) }
{
    let mut made = Merging::begin(handheld);
    for number in 1..16 {
        made.join_by_id(handheld, desktop, number);
    }
    for number in 1..16 {
        made.join_by_label(handheld, desktop, number);
    }
    made
}

// The greatest id, and not less than the last one that was given.
fn greatest(last: u8, entries: &[Entry]) -> u8
    ensures { result ≡ greatest last (map entry_value entries.now) }
{
    let mut last = last;
    for entry in entries {
        last = last.max(entry.id);
    }
    last
}
