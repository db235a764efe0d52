//! A database's file: whether it is one, and what it holds.

ghost use Rattle.std.specs.Prelude.{◌≡◌, IfErr, IfOk, string_bytes};
ghost use Rattle.hotsync_c.specs.Answers.{Answers};
ghost use Rattle.hotsync_c.specs.Files.{IsChecked, RefusesFile, ShowsFile, Unreadable, kind_number};

use crate::refusal::Refusal;
use crate::room::put;
use file_text::show_text;
use pdb_files::{BadKind, FileFault, count_entries, read_database};
use std::alloc::Global;

/// How many entries the database of a file has: records or resources.
///
/// The answer is -2 for bytes that are no database's file: then `kind` is which rule they break first (1 too short, 2 a
/// bad name, 3 a second list of entries, 4 a block out of place, 5 a block that is too large), and `place` where: a length,
/// a byte or a block. It is -1 where memory was refused. In both other cases `kind` and `place` are 0.
#[unsafe(no_mangle)]
pub extern "C" fn hs_check(alloc: Global, file: &[u8], kind: &mut u32, place: &mut u64) -> i64
    ensures { IsChecked file.now kind.new place.new result }
{
    *kind = 0;
    *place = 0;
    match count_entries(alloc, file) {
        Ok(count) => i64::from(count.entries),
        Err(fault) => {
            if let Some((bad, at)) = fault.bad_file() {
                *kind = kind_number(bad);
                *place = at;
            }
            Refusal::of(fault).answer()
        }
    }
}

/// Puts the lines of a file's database into the room: its head, its blocks, and a line for each entry.
///
/// The answer is how long they are, -2 for bytes that are no database's file, or -1 where memory was refused.
#[unsafe(no_mangle)]
pub extern "C" fn hs_show(alloc: Global, file: &[u8], room: &mut [u8]) -> i64
    ensures { Answers (ShowsFile file.now) (RefusesFile file.now) room.old room.new result }
{
    match shown(alloc, file) {
        Ok(text) => put(text.as_bytes(), room),
        Err(fault) => Refusal::of(fault).answer(),
    }
}

// The lines of a file's database.
fn shown(alloc: Global, file: &[u8]) -> Result<String, FileFault>
    ensures shown { IfOk result (λ text. ShowsFile file.now (string_bytes text)) }
    ensures refused { IfErr result (Unreadable file.now) }
{
    let database = read_database(alloc, file)?;
    let text = show_text(alloc, &database)?;
    Ok(text)
}

// The number of a kind of bad file.
fn kind_number(kind: BadKind) -> u32
    ensures { result ≡ kind_number kind }
{
    match kind {
        BadKind::Short => 1,
        BadKind::Name => 2,
        BadKind::Chained => 3,
        BadKind::Offset => 4,
        BadKind::Large => 5,
        BadKind::FileName => 6,
        BadKind::Twice => 7,
        BadKind::Info => 8,
        BadKind::Journal => 9,
    }
}
