// The text of the information file of a desktop.
ghost use Rattle.std.specs.Prelude.{◌≡◌, ◌<◌, ◌^◌, IfOk, string_bytes};
ghost use Rattle.std.specs.List.{AllByRecursion};
ghost use Rattle.folder_files.specs.InfoFiles as files;
ghost use Rattle.folder_files.specs.InfoFiles.{AreSaid, IsDesktopFile, IsPartedSaid, IsSlotSaid, desktop_text};
ghost use Rattle.folder_files.specs.Slots.{AllRise, AreSlots, all_marks};

use crate::parted::Parted;
use crate::slot_info::SlotInfo;
use crate::word::{number_word, slot_word, stem_word};
use std::alloc::{AllocError, Global};

// The first line, of version 3 or 2.
pub(crate) fn title_text(third: bool) -> &'static str
    ensures { result.now ≡ (files.title_form third).key }
{
    if third {
        "hotsync-desktop 3"
    } else {
        "hotsync-desktop 2"
    }
}

/// The information file of a desktop with these slots: in version 2 where in each slot all databases took part in its last
/// session, else in version 3.
pub fn write_desktop_info(alloc: Global, slots: &[SlotInfo]) -> Result<String, AllocError>
    requires formed { AreSlots (all_marks slots.now) }
    requires rise { AllRise slots.now }
    ensures text { IfOk result (λ text. string_bytes text ≡ desktop_text slots.now) }
    ensures file { IfOk result (λ text. IsDesktopFile slots.now (string_bytes text)) }
{
    write(alloc, slots)
}

// The lines in their order.
fn write(alloc: Global, slots: &[SlotInfo]) -> Result<String, AllocError>
    requires { AreSlots (all_marks slots.now) }
    ensures text { IfOk result (λ text. string_bytes text ≡ desktop_text slots.now) }
    ensures said { IfOk result (λ _. AreSaid slots.now) }
{
    let first = &slots[0];
    let pc = number_word(alloc, first.marks.pc)?;
    let count = slots.len();
    let title = title_text(has_parted(slots));
    let mut text = format!(in alloc; "{title}\npc {pc}\nslots {count}\n")?;
    for (number, slot) in slots.iter().enumerate() {
        let lines = slot_lines(alloc, number, slot)?;
        text.push_str(lines.as_str())?;
    }
    Ok(text)
}

// Whether a slot has a database that took no part.
fn has_parted(slots: &[SlotInfo]) -> bool
    ensures { result ≡ files.has_parted slots.now }
{
    slots.iter().any(|slot| !slot.parted.is_empty())
}

// The lines of a slot.
fn slot_lines(alloc: Global, number: usize, slot: &SlotInfo) -> Result<String, AllocError>
    ensures lines { IfOk result (λ lines. string_bytes lines ≡ files.slot_lines number slot.now) }
    ensures says { IfOk result (λ _. IsSlotSaid slot.now) }
{
    let word = slot_word(alloc, &slot.marks)?;
    let mut lines = format!(in alloc; "slot {number} {word}\n")?;
    for one in &slot.parted {
        let line = parted_line(alloc, one)?;
        lines.push_str(line.as_str())?;
    }
    Ok(lines)
}

// The line of a database that took no part.
fn parted_line(alloc: Global, one: &Parted) -> Result<String, AllocError>
    ensures line { IfOk result (λ line. string_bytes line ≡ files.parted_line one.now) }
    ensures says { IfOk result (λ _. IsPartedSaid one.now) }
{
    let word = one.how.word();
    let stem = stem_word(alloc, &one.name)?;
    format!(in alloc; "{word}{stem}\n")
}
