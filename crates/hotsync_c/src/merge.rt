//! The merge of one database.

ghost use Rattle.std.specs.Prelude.{◌≡◌, ◌++◌, IfErr, IfOk, OnOk, length};
ghost use Rattle.std.specs.Option.{option_copied};
ghost use Rattle.hotsync_c.specs.Merges.{AnswersWhole, IsMergeOf, PutsWhole, RefusesAll, RefusesMerge, action_of, ends_of, side_text, sides_text, wishes_of};

use crate::merge_refusal::MergeRefusal;
use crate::sides::read_sides;
use conduit_rules::Action;
use database_merge::{BothSides, MergeWishes, merge_database};
use pdb_files::write_database;
use pdb_values::{Database, PalmDate};
use std::alloc::{AllocError, Global};

/// What is asked of a merge.
#[repr(C)]
#[derive(Clone, Copy)]
pub struct HsHow {
    /// 0: both sides' changes count; 1: the handheld's records are taken as they are; 2: the desktop's.
    pub action: u32,
    /// Whether the last session of both sides was with each other; 0: it wasn't, or nobody knows.
    pub agree: u32,
    /// The date of the session, in seconds since 1904-01-01T00:00:00, which new rows bear.
    pub date: u32,
}

/// Where each file ends in the room.
#[repr(C)]
#[derive(Clone, Copy)]
pub struct HsEnds {
    /// The handheld's database.
    pub handheld: u64,
    /// The desktop's rows.
    pub rows: u64,
    /// Its base rows.
    pub base: u64,
    /// Its archive.
    pub archive: u64,
}

// The files of both sides, one behind the other.
#[derive(Drop)]
struct Files {
    bytes: Vec<u8>,
    ends: HsEnds,
}

/// Puts into the room what a session of both sides leaves of one database, whose files these are: the handheld's, the
/// desktop's rows, base rows and archive, each empty where there is none. The files stand one behind the other, and `ends`
/// says where each ends; a side that has no such file has no bytes. All records of the handheld are looked at. Where the
/// room is too small nothing is written into it.
///
/// The answer is how long all files are; or -2 for bytes that are not the files of one database, or where nothing of that
/// kind is asked; -4 where a side would pass a limit; -5 to -9 where a session leaves the database as it is: it holds
/// resources, is read-only, is a stream, differs in type or creator, or is missing where it may not be; -1 where memory was
/// refused. Then `ends` is as it was.
#[unsafe(no_mangle)]
pub extern "C" fn hs_merge(
    alloc: Global,
    handheld: &[u8],
    rows: &[u8],
    base: &[u8],
    archive: &[u8],
    how: &HsHow,
    room: &mut [u8],
    ends: &mut HsEnds,
) -> i64
    ensures { AnswersWhole
        (IsMergeOf handheld.now rows.now base.now archive.now how.now ends.new)
        (RefusesAll handheld.now rows.now base.now archive.now how.now ends.old ends.new)
        room.old room.new result }
{
    match merged(alloc, handheld, rows, base, archive, how) {
        Ok(files) => {
            *ends = files.ends;
            put_whole(&files.bytes, room)
        }
        Err(refusal) => refusal.answer(),
    }
}

// Puts a text into the room where all of it fits, and says how long it is.
fn put_whole(text: &[u8], room: &mut [u8]) -> i64
    ensures { PutsWhole text.now room.old room.new result }
{
    if text.len() <= room.len() {
        room[..text.len()].copy_from_slice(text);
    }
    text.len() as i64
}

// The files that a session leaves of the database with these files.
fn merged(
    alloc: Global,
    handheld: &[u8],
    rows: &[u8],
    base: &[u8],
    archive: &[u8],
    how: &HsHow,
) -> Result<Files, MergeRefusal>
    ensures merged { IfOk result (λ files.
        IsMergeOf handheld.now rows.now base.now archive.now how.now files.ends files.bytes.items) }
    ensures refused { IfErr result
        (RefusesMerge handheld.now rows.now base.now archive.now how.now) }
{
    let Some(wishes) = wishes_of(how) else {
        return Err(MergeRefusal::Form);
    };
    let both = read_sides(alloc, handheld, rows, base, archive)?;
    match merge_database(alloc, both, &wishes) {
        Ok(after) => Ok(files_of(alloc, &after)?),
        Err(fault) => Err(MergeRefusal::Fault(fault)),
    }
}

// What is asked, where it is something.
fn wishes_of(how: &HsHow) -> Option<MergeWishes>
    ensures { result ≡ wishes_of how.now }
{
    let action = action_of(how.action)?;
    Some(MergeWishes {
        action,
        agree: how.agree != 0,
        date: PalmDate::of_seconds(how.date),
    })
}

// The action of a number.
fn action_of(number: u32) -> Option<Action>
    ensures { result ≡ action_of number }
{
    match number {
        0 => Some(Action::Sync),
        1 => Some(Action::Handheld),
        2 => Some(Action::Desktop),
        3 => Some(Action::Both),
        _ => None,
    }
}

// The files of both sides.
fn files_of(alloc: Global, both: &BothSides) -> Result<Files, AllocError>
    ensures bytes { IfOk result (λ files. files.bytes.items ≡ sides_text both.now) }
    ensures ends { IfOk result (λ files. files.ends ≡ ends_of both.now) }
{
    let mut bytes = Vec::new(alloc);
    let handheld = push_side(alloc, &mut bytes, both.handheld.as_ref())?;
    let rows = push_side(alloc, &mut bytes, both.rows.as_ref())?;
    let base = push_side(alloc, &mut bytes, both.base.as_ref())?;
    let archive = push_side(alloc, &mut bytes, both.archive.as_ref())?;
    let ends = HsEnds {
        handheld,
        rows,
        base,
        archive,
    };
    Ok(Files { bytes, ends })
}

// Puts the file of a database behind the others, where it is there, and says where it ends.
fn push_side(alloc: Global, bytes: &mut Vec<u8>, side: Option<&Database>) -> Result<u64, AllocError>
    ensures file { OnOk result
        (bytes.new.items ≡ bytes.old.items ++ side_text (option_copied side.entry)) }
    ensures end { IfOk result (λ end. end ≡ length bytes.new.items) }
{
    if let Some(database) = side {
        bytes.extend_from_slice(&write_database(alloc, database)?)?;
    }
    Ok(bytes.len() as u64)
}
