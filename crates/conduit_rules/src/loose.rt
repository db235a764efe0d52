// Rows of the desktop that count by themselves: each stands at the place that it has among the rows.
ghost use Rattle.std.specs.Prelude.{◌≡◌, ◌++◌, ◌<◌, length, map, IfOk, OnOk};
ghost use Rattle.std.specs.Option.{option_copied, option_map, ForSome};
ghost use Rattle.conduit_rules.specs.Choices.{loose_for};
ghost use Rattle.conduit_rules.specs.News.{live_contents, archived_records, found_in, noted};

use crate::action::Action;
use crate::holding::Holding;
use crate::rows::{push_content, push_row};
use pdb_values::{Content, Record, RecordId};
use std::alloc::{AllocError, Global};

// So many empty places.
pub fn empty_slots<'a>(alloc: Global, count: usize) -> Result<Vec<Option<&'a Record>>, AllocError>
    ensures { IfOk result (λ slots. length slots.items ≡ count) }
{
    let mut slots = Vec::new(alloc);
    for _ in 0..count {
        slots.push(None)?;
    }
    Ok(slots)
}

// A row goes to its place, where it counts by itself.
pub fn note_row<'a>(
    slots: &mut Vec<Option<&'a Record>>,
    row: Option<(usize, &'a Record)>,
    is_loose: bool,
)
    requires { ForSome row (λ e. e.0 < length slots.old.items) }
    ensures { map option_copied slots.new.items
        ≡ noted (option_map (λ e. (e.0, e.1.now)) row.entry) is_loose
        (map option_copied slots.old.items) }
{
    if let Some((place, item)) = row {
        let slot = if is_loose { Some(item) } else { None };
        slots[place] = slot;
    }
}

// The places whose rows count.
pub fn counted<'s, 'a>(action: Action, slots: &'s [Option<&'a Record>]) -> &'s [Option<&'a Record>]
    ensures { result.now ≡ loose_for action slots.now slots.now }
{
    match action {
        Action::Sync | Action::Desktop | Action::Both => slots,
        Action::Handheld => &[],
    }
}

// Appends the rows in the order of their places: the live ones to the offers, the archived ones under id 0 to the archive.
pub fn collect_loose(
    alloc: Global,
    slots: &[Option<&Record>],
    offers: &mut Vec<Content>,
    archive: &mut Vec<(RecordId, Content)>,
) -> Result<(), AllocError>
    ensures offers { OnOk result (offers.new.items
        ≡ offers.old.items ++ live_contents (found_in (map option_copied slots.now))) }
    ensures archive { OnOk result (archive.new.items ≡ archive.old.items
        ++ map (λ c. (0, c)) (archived_records (found_in (map option_copied slots.now)))) }
{
    for slot in slots {
        if let Some(item) = slot {
            let holding = Holding::of_record(item);
            push_content(alloc, offers, holding.live())?;
            push_row(alloc, archive, no_id(), holding.archived())?;
        }
    }
    Ok(())
}

fn no_id() -> RecordId
    ensures { result ≡ 0 }
{
    RecordId::new(0).unwrap()
}
