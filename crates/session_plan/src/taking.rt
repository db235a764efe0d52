// What the desktop takes of one planned database.
ghost use Rattle.std.specs.Prelude.{◌≡◌, IfOk, false, length, option_to_list};
ghost use Rattle.std.specs.List.{AllByRecursion};
ghost use Rattle.pdb_values.specs.Heads.{holds_resources};
ghost use Rattle.desk_store.specs.Changes.{IsDbChange};
ghost use Rattle.desk_store.specs.Views.{shelves_in};
ghost use Rattle.palm_device.specs.Blocks.{empty_database};
ghost use Rattle.session_plan.specs.Fits.{IsTakeable};
ghost use Rattle.session_plan.specs.Heads as heads;
ghost use Rattle.session_plan.specs.Merges.{archive_of};
ghost use Rattle.session_plan.specs.Takes as takes;

use crate::archive::merged_archive;
use crate::building::{beside, refilled};
use crate::heads::rows_head;
use crate::planned::Planned;
use crate::planning::records_in;
use crate::rows::{planned_base, planned_rows};
use conduit_rules::Plan;
use desk_store::{DbChange, Desk};
use hs_folders::Folder;
use pdb_values::{Database, DbHead, PalmDate, Record, RecordId};
use std::alloc::{AllocError, Global};

// The archive of a database with these entries; none where there is no entry.
fn archive_with(
    alloc: Global,
    rows: &Database,
    entries: Vec<Record>,
) -> Result<Option<Database>, AllocError>
    requires { holds_resources rows.now.head.attributes ≡ false }
    ensures { IfOk result (λ archive. archive ≡ archive_of rows.now entries.items) }
{
    if entries.is_empty() {
        return Ok(None);
    }
    Ok(Some(beside(alloc, rows, entries)?))
}

// The change of a database of records whose new records got these ids.
fn planned_change(
    alloc: Global,
    plan: &Plan,
    given: &[RecordId],
    old: &[Record],
    rows: &Database,
) -> Result<DbChange, AllocError>
    requires records { holds_resources rows.now.head.attributes ≡ false }
    requires counted { length given.now ≡ length plan.now.adds.items }
    ensures change { IfOk result (λ change. change
        ≡ takes.planned_change plan.now given.now old.now rows.now) }
    ensures fit { IfOk result IsDbChange }
{
    let kept = planned_rows(alloc, plan, given)?;
    let known = planned_base(alloc, plan, given)?;
    let entries = merged_archive(alloc, old, &plan.archive)?;
    let base = beside(alloc, rows, known)?;
    let archive = archive_with(alloc, rows, entries)?;
    let rows = refilled(alloc, rows, kept)?;
    Ok(DbChange {
        rows,
        base,
        archive,
    })
}

// New rows for a database of the handheld: none yet, without blocks.
fn new_rows(alloc: Global, date: PalmDate, head: &DbHead) -> Database
    ensures { result ≡ empty_database (heads.rows_head date head.now) }
{
    Database::new(alloc, rows_head(date, head))
}

/// The change that a planned database makes of the desktop's picked slot, where its new records got these ids. A database that is
/// skipped makes none.
#[tactic(auto, unfolding(crate::specs::Takes::change_of))]
pub(crate) fn take_one<D: Folder>(
    alloc: Global,
    desk: &Desk<D>,
    date: PalmDate,
    one: &Planned,
    given: &[RecordId],
) -> Result<Option<DbChange>, AllocError>
    requires { IsTakeable date (shelves_in desk.now) one.now given.now }
    ensures change { IfOk result (λ change. option_to_list change
        ≡ takes.change_of date (shelves_in desk.now) one.now given.now) }
    ensures fit { IfOk result (λ change. AllByRecursion IsDbChange (option_to_list change)) }
{
    if one.job.skip.is_some() {
        return Ok(None);
    }
    let old = records_in(desk.archive(&one.job.name));
    match desk.rows(&one.job.name) {
        Some(rows) => Ok(Some(planned_change(alloc, &one.plan, given, old, rows)?)),
        None => match &one.job.handheld {
            Some(head) => {
                let rows = new_rows(alloc, date, head);
                Ok(Some(planned_change(alloc, &one.plan, given, old, &rows)?))
            }
            None => Ok(None),
        },
    }
}
