// Reading the information file of a desktop.
ghost use Rattle.std.specs.Prelude.{◌≡◌, ◌==◌, [], IfOk, Ok, List};
ghost use Rattle.std.specs.List.{list_any};
ghost use Rattle.folder_files.specs.InfoFiles.{IsDesktopFile, desktop_in, many_slots_at, one_slot_at, parted_at, slots_at};
ghost use Rattle.folder_files.specs.Slots as slots_spec;
ghost use Rattle.folder_files.specs.Slots.{AllRise, SlotInfoValue, all_marks};
ghost use Rattle.folder_files.specs.Views.{FindsUnless, Reads};

use crate::desktop_text::title_text;
use crate::fault::{InfoFault, LineFault};
use crate::line::Lines;
use crate::parted::Parted;
use crate::slot_info::SlotInfo;
use crate::stem::follows;
use crate::unread::Unread;
use pdb_values::{Database, Marks};
use std::alloc::Global;

// The most databases of a slot that took no part, as many as both sides together have.
const MOST: usize = 2 * Database::MOST;

/// Reads the information file of a desktop, which is all of the bytes: what the desktop knows of the user of each slot, and
/// which databases took no part in its last session, in the order of the slots' numbers. A file of version 1 has one slot,
/// and in one of version 1 or 2 each database took part.
pub fn read_desktop_info(alloc: Global, bytes: &[u8]) -> Result<Vec<SlotInfo>, InfoFault>
    // What is read has the bytes as its file, and in each slot the stems rise.
    ensures found { IfOk result (λ infos. IsDesktopFile infos.items bytes.now) }
    ensures rise { IfOk result (λ infos. AllRise infos.items) }
    // What has the bytes as its file is read, unless memory runs out.
    ensures only { (infos : List SlotInfoValue) → IsDesktopFile infos bytes.now
        → Reads result (Ok infos) }
    // Where the first bad line begins.
    ensures exact { Reads result (desktop_in bytes.now) }
{
    read(alloc, bytes)
}

#[tactic(auto, unfolding(crate::specs::InfoFiles::desktop_in))]
fn read(alloc: Global, bytes: &[u8]) -> Result<Vec<SlotInfo>, InfoFault>
    ensures { Reads result (desktop_in bytes.now) }
{
    let found = if bytes.starts_with(b"hotsync-desktop 1") {
        read_one_slot(alloc, bytes)
    } else {
        let third = bytes.starts_with(b"hotsync-desktop 3");
        read_many_slots(alloc, third, bytes)
    };
    match found {
        Ok(infos) => Ok(infos),
        Err(LineFault::Left(unread)) => Err(InfoFault::Bad(unread.place_in(bytes))),
        Err(LineFault::OutOfMemory) => Err(InfoFault::NoMemory),
    }
}

// The lines of version 1 in their order.
fn read_one_slot(alloc: Global, bytes: &[u8]) -> Result<Vec<SlotInfo>, LineFault>
    ensures { FindsUnless (λ infos. infos.items) result (one_slot_at bytes.now) }
{
    let mut lines = Lines { rest: bytes };
    lines.title(b"hotsync-desktop 1")?;
    let pc = lines.positive(b"pc ")?;
    let user = lines.number(b"user ")?;
    let last = lines.date(b"last ")?;
    let name = lines.name(b"name ")?;
    lines.end()?;
    let marks = Marks {
        pc,
        user,
        last,
        name,
    };
    let parted = Vec::new(alloc);
    let infos = vec![in alloc; SlotInfo { marks, parted }]?;
    Ok(infos)
}

// The lines of version 2 or 3 in their order.
fn read_many_slots(alloc: Global, third: bool, bytes: &[u8]) -> Result<Vec<SlotInfo>, LineFault>
    ensures { FindsUnless (λ infos. infos.items) result (many_slots_at third bytes.now) }
{
    let mut lines = Lines { rest: bytes };
    lines.title(title_text(third).as_bytes())?;
    let pc = lines.positive(b"pc ")?;
    let count = lines.count(b"slots ")?;
    let room = if third { MOST } else { 0 };
    let infos = read_slots(alloc, room, pc, count, &mut lines)?;
    Ok(infos)
}

// The lines of so many slots, which are all that is left.
fn read_slots(
    alloc: Global,
    room: usize,
    pc: u32,
    count: usize,
    lines: &mut Lines<'_>,
) -> Result<Vec<SlotInfo>, LineFault>
    ensures { FindsUnless (λ infos. infos.items) result
        (slots_at room pc count [] lines.old.rest.now) }
{
    let mut infos = Vec::new(alloc);
    for number in 0..count {
        let left = Unread(lines.rest.len());
        let key = format!(in alloc; "slot {number} ")?;
        let (user, last, name) = lines.slot(key.as_bytes())?;
        if !may_follow(&infos, user) {
            return Err(LineFault::Left(left));
        }
        let parted = read_parted(alloc, room, lines)?;
        let marks = Marks {
            pc,
            user,
            last,
            name,
        };
        infos.push(SlotInfo { marks, parted })?;
    }
    lines.end()?;
    Ok(infos)
}

// The lines of the databases of a slot that took no part, at most so many.
fn read_parted(alloc: Global, room: usize, lines: &mut Lines<'_>) -> Result<Vec<Parted>, LineFault>
    ensures { FindsUnless (λ parted. (parted.items, lines.new.rest.now)) result
        (parted_at room [] lines.old.rest.now) }
{
    let mut parted = Vec::new(alloc);
    'databases: while parted.len() < room {
        let Some(how) = lines.parting() else {
            return Ok(parted);
        };
        let left = Unread(lines.rest.len());
        let name = lines.stem(alloc, how.word().as_bytes())?;
        if !follows(alloc, &parted, &name)? {
            return Err(LineFault::Left(left));
        }
        parted.push(Parted { name, how })?;
    }
    Ok(parted)
}

// Whether the slot behind these may have this user.
fn may_follow(slots: &[SlotInfo], user: u32) -> bool
    ensures { result ≡ slots_spec.may_follow (all_marks slots.now) user }
{
    slots.is_empty() || (user != 0 && !is_user(slots, user))
}

// Whether one of the slots has this user.
fn is_user(slots: &[SlotInfo], user: u32) -> bool
    ensures { result ≡ list_any (λ slot. slot.marks.user == user) slots.now }
{
    slots.iter().any(|slot| slot.marks.user == user)
}
