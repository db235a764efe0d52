// Reading the entries of a journal.
ghost use Rattle.std.specs.Prelude.{◌≡◌, [], IfSome, length};
ghost use Rattle.std.specs.Option.{option_map};
ghost use Rattle.desk_journal.specs.Entries.{entry_values, is_named as bears_name};
ghost use Rattle.desk_journal.specs.Reading.{ReadsEntries, data_at, entries_at, entry_at, kept_in, name_at, some_at};
ghost use Rattle.desk_journal.specs.declared.entry_reader.EntryFault.TheVariants.{OutOfMemory};

use crate::entry::Entry;
use folder_files::is_kept_file;
use std::alloc::{AllocError, AllocFailed, Global};

// Why entries were not read.
#[derive(Clone, Copy)]
pub(crate) enum EntryFault {
    // How many bytes are left from the first bad one on.
    Left(usize),
    OutOfMemory,
}

impl From<AllocError> for EntryFault {
    ghost from_gives = { λ _ fault. fault ≡ OutOfMemory };

    fn from(_: AllocError) -> Self {
        EntryFault::OutOfMemory
    }
}

impl<T: Drop> From<AllocFailed<T>> for EntryFault {
    ghost from_gives = { λ _ fault. fault ≡ OutOfMemory };

    fn from(_: AllocFailed<T>) -> Self {
        EntryFault::OutOfMemory
    }
}

// What an entry has, in the bytes of its journal.
#[derive(Clone, Copy)]
struct Lent<'a> {
    name: &'a str,
    bytes: &'a [u8],
    rest: &'a [u8],
}

// So many entries, which are all of the bytes.
pub(crate) fn read_entries(
    alloc: Global,
    count: u16,
    bytes: &[u8],
) -> Result<Vec<Entry>, EntryFault>
    ensures { ReadsEntries result (entries_at count [] bytes.now) }
{
    let mut entries = Vec::new(alloc);
    let mut rest = bytes;
    for _ in 0..count {
        let Some(lent) = lend_entry(&entries, rest) else {
            return Err(EntryFault::Left(rest.len()));
        };
        entries.push(Entry {
            name: String::from_str(alloc, lent.name)?,
            bytes: Vec::from_slice(alloc, lent.bytes)?,
        })?;
        rest = lent.rest;
    }
    if !rest.is_empty() {
        return Err(EntryFault::Left(rest.len()));
    }
    Ok(entries)
}

// An entry whose name no earlier one bears.
#[tactic(auto, unfolding(crate::specs::Reading::entry_at))]
fn lend_entry<'a>(earlier: &[Entry], bytes: &'a [u8]) -> Option<Lent<'a>>
    ensures { option_map (λ lent. (
      record { name = lent.name.now; bytes = lent.bytes.now },
      lent.rest.now,
    )) result ≡ entry_at (entry_values earlier.now) bytes.now }
{
    let (name, rest) = lend_name(bytes)?;
    let (bytes, rest) = lend_data(rest)?;
    if is_named(earlier, name) {
        return None;
    }
    Some(Lent { name, bytes, rest })
}

// A name behind its length.
#[tactic(auto, unfolding(crate::specs::Reading::name_at))]
fn lend_name(bytes: &[u8]) -> Option<(&str, &[u8])>
    ensures { option_map (λ parts. (parts.0.now, parts.1.now)) result ≡ name_at bytes.now }
{
    let [count, rest @ ..] = bytes else {
        return None;
    };
    let (bytes, rest) = lend_some(usize::from(*count), rest)?;
    let name = kept_name(bytes)?;
    Some((name, rest))
}

// The name of a file that a desktop keeps, in UTF-8.
fn kept_name(bytes: &[u8]) -> Option<&str>
    ensures { option_map (λ name. name.now) result ≡ kept_in bytes.now }
{
    let name = match str::from_utf8(bytes) {
        Ok(name) => name,
        Err(_) => return None,
    };
    if is_kept_file(name) { Some(name) } else { None }
}

// Bytes behind their length.
#[tactic(auto, unfolding(crate::specs::Reading::data_at))]
fn lend_data(bytes: &[u8]) -> Option<(&[u8], &[u8])>
    ensures { option_map (λ parts. (parts.0.now, parts.1.now)) result ≡ data_at bytes.now }
{
    let (size, rest) = lend_some(4, bytes)?;
    let size = u32::from_be_bytes([size[0], size[1], size[2], size[3]]);
    lend_some(size as usize, rest)
}

// So many bytes, and those behind them.
#[tactic(auto, unfolding(crate::specs::Reading::some_at))]
fn lend_some(count: usize, bytes: &[u8]) -> Option<(&[u8], &[u8])>
    ensures parts { option_map (λ parts. (parts.0.now, parts.1.now)) result
        ≡ some_at count bytes.now }
    ensures length { IfSome result (λ parts. length parts.0.now ≡ count) }
{
    if bytes.len() < count {
        None
    } else {
        Some(bytes.split_at(count))
    }
}

// Whether one of the entries bears this name.
fn is_named(entries: &[Entry], name: &str) -> bool
    ensures { result ≡ bears_name (entry_values entries.now) name.now }
{
    for entry in entries {
        if entry.name.as_str() == name {
            return true;
        }
    }
    false
}
