//! The blocks of a file: the app block and the sort block, where they are there, and the data of each entry. Each
//! reaches to the next one, the last to the end of the file.

ghost use Rattle.std.specs.Prelude.{◌≡◌, ◌+◌, ◌*◌, ◌≤◌, ◌<◌, ◌++◌, IfOk, IfSome, OnOk, length, drop, slice_index, slice_range};
ghost use Rattle.std.specs.Result.{result_err};
ghost use Rattle.pdb_values.specs.Blocks.{block_of};
ghost use Rattle.pdb_files.specs.Blocks.{AreInOrder, begin_list, behind_front, blocks_in, first_misplaced, first_oversized, front_block, next_begin};
ghost use Rattle.pdb_files.specs.Entries.{begin_place, begins_in, entry_length};
ghost use Rattle.pdb_files.specs.Faults.{block_begins, blocks_fault, first_place};
ghost use Rattle.pdb_files.specs.Reading.{header_in};

use crate::entry::{begin_place, entry_length};
use crate::fault::FileFault;
use crate::field::u32_at;
use crate::header::{HEADER_LENGTH, Header};
use pdb_values::Database;
use std::alloc::{AllocError, Global};

/// Where the blocks begin, as the header and the entries say.
pub fn block_begins(alloc: Global, header: &Header, bytes: &[u8]) -> Result<Vec<u32>, AllocError>
    requires header { header.now ≡ header_in bytes.now }
    requires long { first_place bytes.now ≤ length bytes.now }
    ensures { IfOk result (λ begins. begins.items ≡ block_begins bytes.now) }
{
    let mut begins = Vec::new(alloc);
    push_begin(&mut begins, header.app)?;
    push_begin(&mut begins, header.sort)?;
    let entries = bytes.split_at(HEADER_LENGTH).1;
    push_begins(
        &mut begins,
        header.head.holds_resources(),
        header.count,
        entries,
    )?;
    Ok(begins)
}

// Puts in where a block begins, unless the header says that it is absent.
fn push_begin(begins: &mut Vec<u32>, offset: u32) -> Result<(), AllocError>
    ensures { OnOk result (begins.new.items ≡ begins.old.items ++ begin_list offset) }
{
    if offset == 0 {
        return Ok(());
    }
    begins.push(offset)?;
    Ok(())
}

// Puts in where the data of so many entries begins.
fn push_begins(
    begins: &mut Vec<u32>,
    of_resources: bool,
    count: u16,
    entries: &[u8],
) -> Result<(), AllocError>
    requires { entry_length of_resources * count ≤ length entries.now }
    ensures { OnOk result (begins.new.items ≡ begins.old.items
        ++ begins_in (entry_length of_resources) (begin_place of_resources) count entries.now) }
{
    let mut rest = entries;
    for _ in 0..count {
        begins.push(u32_at(rest, begin_place(of_resources)))?;
        rest = rest.split_at(entry_length(of_resources)).1;
    }
    Ok(())
}

/// Refuses the first block that is out of its place, and else the first one that is too large.
pub fn check_blocks(begins: &[u32], first: usize, end: usize) -> Result<(), FileFault>
    requires { length begins.now ≤ 65537 }
    ensures { result_err result ≡ blocks_fault first end begins.now }
{
    if let Some(place) = first_misplaced(begins, first, end) {
        return Err(FileFault::BadOffset(place as u32));
    }
    if let Some(place) = first_oversized(begins, end) {
        return Err(FileFault::TooLarge(place as u32));
    }
    Ok(())
}

// The first block that begins before the end of the entries, before the block in front of it or after the end of
// the file.
fn first_misplaced(begins: &[u32], first: usize, end: usize) -> Option<usize>
    ensures place { result ≡ first_misplaced first end begins.now }
    ensures within { IfSome result (λ place. place < length begins.now) }
{
    let mut before = first;
    for (place, begin) in begins.iter().enumerate() {
        let begin = *begin as usize;
        if begin < before || begin > end {
            return Some(place);
        }
        before = begin;
    }
    None
}

// The first block that is too large, where each is in its place.
fn first_oversized(begins: &[u32], end: usize) -> Option<usize>
    requires { AreInOrder 0 end begins.now }
    ensures place { result ≡ first_oversized end begins.now }
    ensures within { IfSome result (λ place. place < length begins.now) }
{
    for place in 0..begins.len() {
        if block_end(begins, place, end) - begins[place] as usize > Database::LIMIT {
            return Some(place);
        }
    }
    None
}

// Where a block ends: where the next one begins, or at the end of the file.
fn block_end(begins: &[u32], place: usize, end: usize) -> usize
    requires { place < length begins.now }
    ensures { result ≡ next_begin (drop (place + 1) begins.now) end }
{
    match &begins[place + 1..] {
        [] => end,
        [next, ..] => *next as usize,
    }
}

/// The bytes of one block, where each is in its place.
pub fn block<'a>(bytes: &'a [u8], begins: &[u32], place: usize) -> &'a [u8]
    requires there { place < length begins.now }
    requires order { AreInOrder 0 (length bytes.now) (drop place begins.now) }
    ensures { result.now
        ≡ slice_range bytes.now (slice_index begins.now place)
        (next_begin (drop (place + 1) begins.now) (length bytes.now)) }
{
    &bytes[begins[place] as usize..block_end(begins, place, bytes.len())]
}

/// The first of these blocks, if the header says by its offset that it is there.
pub fn front_block(
    alloc: Global,
    offset: u32,
    bytes: &[u8],
    begins: &[u32],
) -> Result<Option<Vec<u8>>, AllocError>
    requires there { length (begin_list offset) ≤ length begins.now }
    requires order { AreInOrder 0 (length bytes.now) begins.now }
    ensures { IfOk result (λ block. block_of block
        ≡ front_block offset (blocks_in begins.now bytes.now)) }
{
    if offset == 0 {
        return Ok(None);
    }
    Ok(Some(Vec::from_slice(alloc, block(bytes, begins, 0))?))
}

/// Where the blocks behind it begin.
pub fn behind_front(offset: u32, begins: &[u32]) -> &[u32]
    requires { length (begin_list offset) ≤ length begins.now }
    ensures { result.now ≡ behind_front offset begins.now }
{
    if offset == 0 { begins } else { &begins[1..] }
}
