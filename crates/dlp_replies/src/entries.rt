// Entries of a list of databases, lent from a slice or from the bytes of a reply.
ghost use Rattle.std.specs.Prelude.{◌≡◌, ◌==◌, ◌≤◌, true, length, map, slice_get, is_some, None};
ghost use Rattle.std.specs.List.{AllByRecursion};
ghost use Rattle.dlp_replies.specs.Checks.{first_bad};
ghost use Rattle.dlp_replies.specs.EntryReading.{item_of, rows_checks, rows_in, rows_or_none};
ghost use Rattle.dlp_replies.specs.Writables.{HasNoSeed};

use crate::entry_walk::item_in;
use pdb_values::DbHead;
use std::marker::Model;

/// The indexes and heads of databases, in order, at most 255. The heads have the seed 0.
#[derive(Drop)]
pub struct Entries<'a> {
    lent: LentEntries<'a>,
}

// Where they lie: in a slice, or as so many entries at the front of bytes.
#[derive(Clone, Copy)]
enum LentEntries<'a> {
    Items(&'a [(u16, DbHead)]),
    Bytes(u8, &'a [u8]),
}

impl<'a> Model for Entries<'a> {
    ghost use Rattle.std.specs.Prelude.{ℕ, List};
    ghost use Rattle.pdb_values.specs.declared.head.DbHead.{DbHead};

    ghost Value = { List (ℕ × DbHead) };

    ghost use Rattle.dlp_replies.specs.Lent.{lent_items, AreEntries};

    ghost view = { λ entries. lent_items entries.lent };

    ghost invariant = { λ entries. AreEntries entries.lent };
}

impl<'a> Entries<'a> {
    /// The entries of a slice: at most 255, each with the seed 0.
    pub fn of(items: &'a [(u16, DbHead)]) -> Entries<'a>
        requires few { length items.now ≤ 255 }
        requires seeds { AllByRecursion HasNoSeed items.now }
        ensures { result ≡ items.now }
    {
        Entries {
            lent: LentEntries::Items(items),
        }
    }

    // So many entries, which are all of the bytes and whose values are some.
    pub(crate) fn of_bytes(count: u8, bytes: &'a [u8]) -> Entries<'a>
        requires rows { is_some (rows_in count bytes.now) ≡ true }
        requires values { first_bad (rows_checks 4 (rows_or_none (rows_in count bytes.now)))
            ≡ None }
        ensures { result ≡ map item_of (rows_or_none (rows_in count bytes.now)) }
    {
        Entries {
            lent: LentEntries::Bytes(count, bytes),
        }
    }

    /// The number of entries.
    pub fn len(&self) -> usize
        ensures len { result ≡ length self.now }
        ensures few { result ≤ 255 }
    {
        match self.lent {
            LentEntries::Items(items) => items.len(),
            LentEntries::Bytes(count, _) => usize::from(count),
        }
    }

    /// Whether there is none.
    pub fn is_empty(&self) -> bool
        ensures { result ≡ (length self.now == 0) }
    {
        self.len() == 0
    }

    /// The index and the head at a place, or None past the end. It takes no memory.
    pub fn get(&self, place: usize) -> Option<(u16, DbHead)>
        ensures { result ≡ slice_get self.now place }
    {
        match self.lent {
            LentEntries::Items(items) => {
                let (index, head) = items.get(place)?;
                Some((*index, head.copy()))
            }
            LentEntries::Bytes(count, bytes) => item_in(count, bytes, place),
        }
    }
}
