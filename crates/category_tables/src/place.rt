// Where an entry stands.
ghost use Rattle.std.specs.Prelude.{◌≡◌, ◌<◌, ◌==◌, ◌&&◌, IfSome, length, map, not, position};
ghost use Rattle.std.specs.Str.{bytes_eq};
ghost use Rattle.palm_records.specs.Strings.{until_zero};
ghost use Rattle.category_tables.specs.Tables.{entry_value, has_label};
ghost use Rattle.category_tables.specs.Merges.{of_id, of_label, unused};

use crate::table::Entry;
use palm_records::until_zero;

/// The used entry with this id, from number 1 on.
pub fn of_id(entries: &[Entry; 16], id: u8) -> Option<usize>
    ensures value { result ≡ of_id (map entry_value entries.now) id }
    ensures there { IfSome result (λ place. place < 16) }
{
    let place = place_of_id(&entries[1..], id)?;
    Some(place + 1)
}

fn place_of_id(entries: &[Entry], id: u8) -> Option<usize>
    ensures value { result ≡ position (λ entry. has_label (entry_value entry) && (entry.id == id))
        entries.now }
    ensures there { IfSome result (λ place. place < length entries.now) }
{
    entries
        .iter()
        .position(|entry| entry.has_label() && entry.id == id)
}

/// The least entry with this label.
pub fn of_label(entries: &[Entry; 16], label: &[u8; 16]) -> Option<usize>
    ensures value { result ≡ of_label (map entry_value entries.now) (until_zero label.now) }
    ensures there { IfSome result (λ place. place < 16) }
{
    place_of_label(entries, until_zero(label))
}

fn place_of_label(entries: &[Entry], label: &[u8]) -> Option<usize>
    ensures value { result ≡ position (λ entry. bytes_eq (until_zero entry.label) label.now)
        entries.now }
    ensures there { IfSome result (λ place. place < length entries.now) }
{
    entries
        .iter()
        .position(|entry| until_zero(&entry.label) == label)
}

/// The least unused number, from 1 on.
pub fn unused(entries: &[Entry; 16]) -> Option<usize>
    ensures value { result ≡ unused (map entry_value entries.now) }
    ensures there { IfSome result (λ place. place < 16) }
{
    let place = unused_place(&entries[1..])?;
    Some(place + 1)
}

fn unused_place(entries: &[Entry]) -> Option<usize>
    ensures value { result ≡ position (λ entry. not (has_label (entry_value entry))) entries.now }
    ensures there { IfSome result (λ place. place < length entries.now) }
{
    entries.iter().position(|entry| !entry.has_label())
}
