// Reading a journal.
ghost use Rattle.std.specs.Prelude.{◌≡◌, List, IfOk, Ok};
ghost use Rattle.desk_journal.specs.Entries.{EntryValue, IsJournal, entry_values, journal_text};
ghost use Rattle.desk_journal.specs.Reading.{Reads, journal_in};

use crate::bad_journal::BadJournal;
use crate::entry::Entry;
use crate::entry_reader::{EntryFault, read_entries};
use crate::fault::JournalFault;
use std::alloc::Global;

// The mark of a journal.
pub(crate) const MARK: &[u8; 4] = b"HSJ1";

// How long the mark and the number of entries are.
const FRONT: usize = 6;

/// Reads a journal, which is all of the bytes.
pub fn read_journal(alloc: Global, bytes: &[u8]) -> Result<Vec<Entry>, JournalFault>
    // What is read has the bytes as its text.
    ensures found { IfOk result (λ entries. IsJournal (entry_values entries.items)
        × (bytes.now ≡ journal_text (entry_values entries.items))) }
    // What has the bytes as its text is read, unless memory runs out.
    ensures only { (entries : List EntryValue) → IsJournal entries
        → bytes.now ≡ journal_text entries → Reads result (Ok entries) }
    // Where the bytes are out of the form.
    ensures exact { Reads result (journal_in bytes.now) }
{
    read(alloc, bytes)
}

#[tactic(auto, unfolding(crate::specs::Reading::journal_in))]
fn read(alloc: Global, bytes: &[u8]) -> Result<Vec<Entry>, JournalFault>
    ensures { Reads result (journal_in bytes.now) }
{
    if bytes.len() < FRONT || !bytes.starts_with(MARK) {
        return Err(JournalFault::Bad(BadJournal { place: 0 }));
    }
    let count = u16::from_be_bytes([bytes[4], bytes[5]]);
    match read_entries(alloc, count, &bytes[FRONT..]) {
        Ok(entries) => Ok(entries),
        Err(EntryFault::Left(left)) => Err(JournalFault::Bad(BadJournal {
            place: bytes.len().saturating_sub(left) as u64,
        })),
        Err(EntryFault::OutOfMemory) => Err(JournalFault::NoMemory),
    }
}
