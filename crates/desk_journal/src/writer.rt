// Writing a journal.
ghost use Rattle.std.specs.Prelude.{◌≡◌, ◌++◌, OnOk, IfOk};
ghost use Rattle.desk_journal.specs.Entries.{IsEntry, IsJournal, entry_text, entry_value, entry_values, journal_text};

use crate::entry::Entry;
use crate::reader::MARK;
use std::alloc::{AllocError, Global};

/// The journal of these entries.
pub fn write_journal(alloc: Global, entries: &[Entry]) -> Result<Vec<u8>, AllocError>
    requires { IsJournal (entry_values entries.now) }
    ensures { IfOk result (λ bytes. bytes.items ≡ journal_text (entry_values entries.now)) }
{
    let mut bytes = Vec::from_slice(alloc, MARK)?;
    bytes.reserve_exact(room_of(entries))?;
    bytes.extend_from_slice(&(entries.len() as u16).to_be_bytes())?;
    for entry in entries {
        put_entry(&mut bytes, entry)?;
    }
    Ok(bytes)
}

// How many bytes follow the mark: they are reserved at once, so that no journal is moved while it grows.
fn room_of(entries: &[Entry]) -> usize {
    let mut room = 2usize;
    for entry in entries {
        room = room
            .saturating_add(5)
            .saturating_add(entry.name.len())
            .saturating_add(entry.bytes.len());
    }
    room
}

// Appends an entry.
fn put_entry(out: &mut Vec<u8>, entry: &Entry) -> Result<(), AllocError>
    requires { IsEntry (entry_value entry.now) }
    ensures { OnOk result (out.new.items ≡ out.old.items ++ entry_text (entry_value entry.now)) }
{
    out.push(entry.name.len() as u8)?;
    out.extend_from_slice(entry.name.as_bytes())?;
    out.extend_from_slice(&(entry.bytes.len() as u32).to_be_bytes())?;
    out.extend_from_slice(&entry.bytes)?;
    Ok(())
}
