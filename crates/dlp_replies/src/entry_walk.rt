// Going over the entries in bytes.
ghost use Rattle.std.specs.Prelude.{◌≡◌, ◌<◌, ◌≤◌, ◌^◌, true, is_some, slice_get, IfSome};
ghost use Rattle.std.specs.Option.{option_map};
ghost use Rattle.dlp_replies.specs.Checks.{first_bad};
ghost use Rattle.dlp_replies.specs.EntryReading.{rows_checks, rows_in, rows_or_none};
ghost use Rattle.dlp_replies.specs.Lent.{item_at, items_in};

use crate::entry::take_entry;
use pdb_values::DbHead;

// Whether so many entries are all of the bytes.
pub(crate) fn are_entries(count: u8, bytes: &[u8]) -> bool
    ensures { result ≡ is_some (rows_in count bytes.now) }
{
    let mut rest = bytes;
    for _ in 0..count {
        match take_entry(rest) {
            Some((_, after)) => rest = after,
            None => return false,
        }
    }
    rest.is_empty()
}

// The place of the first value that is none in entries which begin at the place 4.
pub(crate) fn first_bad_value(count: u8, bytes: &[u8]) -> Option<usize>
    requires { is_some (rows_in count bytes.now) ≡ true }
    ensures bad { result ≡ first_bad (rows_checks 4 (rows_or_none (rows_in count bytes.now))) }
    ensures bound { IfSome result (λ bad. bad < 2 ^ 32) }
{
    let mut place = 4;
    let mut rest = bytes;
    for _ in 0..count {
        let (cells, after) = take_entry(rest)?;
        if let Err(bad) = cells.item(place) {
            return Some(bad);
        }
        place += usize::from(cells.size);
        rest = after;
    }
    None
}

// The entry at a place, of so many at the front of bytes.
pub(crate) fn item_in(count: u8, bytes: &[u8], place: usize) -> Option<(u16, DbHead)>
    ensures { result ≡ slice_get (items_in count bytes.now) place }
{
    if place >= usize::from(count) {
        return None;
    }
    let mut rest = bytes;
    for _ in 0..place {
        let (_, after) = take_item(rest)?;
        rest = after;
    }
    let (item, _) = take_item(rest)?;
    Some(item)
}

// The entry at the front and the bytes behind it, or None where there is none, or where a value of it is none.
#[tactic(auto, unfolding(crate::specs::Lent::item_at))]
fn take_item(bytes: &[u8]) -> Option<((u16, DbHead), &[u8])>
    ensures { option_map (λ found. (found.0, found.1.now)) result ≡ item_at bytes.now }
{
    let (cells, rest) = take_entry(bytes)?;
    match cells.item(0) {
        Ok(item) => Some((item, rest)),
        Err(_) => None,
    }
}
