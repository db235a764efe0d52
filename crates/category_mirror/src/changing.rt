// What changes on the desktop.
ghost use Rattle.std.specs.Prelude.{◌≡◌, ◌++◌, IfOk, OnOk, Some, false, length, option_to_list};
ghost use Rattle.std.specs.Option.{option_copied};
ghost use Rattle.pdb_values.specs.Heads.{holds_resources};
ghost use Rattle.desk_store.specs.Views.{shelves_in};
ghost use Rattle.category_mirror.specs.Changes as changes;

use crate::job::FilingJob;
use crate::merge::Merge;
use crate::refiling::{is_refiled, refiled, refiled_base};
use desk_store::{DbChange, Desk};
use hs_folders::Folder;
use pdb_values::{Database, DbName, Record};
use session_plan::refilled;
use std::alloc::{AllocError, Global};

// A record once more, live and clean.
fn cleared_record(alloc: Global, item: &Record) -> Result<Record, AllocError>
    ensures { IfOk result (λ copy. copy ≡ changes.cleared_record item.now) }
{
    Ok(Record {
        id: item.id,
        deleted: false,
        dirty: false,
        busy: false,
        content: item.content.copy(alloc)?,
    })
}

// A database of records once more, with its flags clear.
fn cleared_database(alloc: Global, database: &Database) -> Result<Database, AllocError>
    requires { holds_resources database.now.head.attributes ≡ false }
    ensures { IfOk result (λ copy. copy ≡ changes.cleared_database database.now) }
{
    let mut records = Vec::new(alloc);
    for item in database.records() {
        records.push(cleared_record(alloc, item)?)?;
    }
    refilled(alloc, database, records)
}

// An archive of records once more, with its flags clear; one without entries stays.
fn cleared_archive(
    alloc: Global,
    archive: Option<&Database>,
) -> Result<Option<Database>, AllocError>
    ensures { IfOk result (λ copy. copy ≡ changes.cleared_archive (option_copied archive.entry)) }
{
    let Some(archive) = archive else {
        return Ok(None);
    };
    if archive.head().holds_resources() || archive.records().is_empty() {
        return Ok(None);
    }
    Ok(Some(cleared_database(alloc, archive)?))
}

// Whether rows and base rows hold records, and the rows change.
fn is_changed(
    alloc: Global,
    merge: &Merge,
    rows: &Database,
    base: &Database,
) -> Result<bool, AllocError>
    ensures { IfOk result (λ is. is ≡ changes.is_changed merge.now rows.now base.now) }
{
    if rows.head().holds_resources() || base.head().holds_resources() {
        return Ok(false);
    }
    is_refiled(alloc, rows, merge)
}

// The change of rows and base rows that are there, where the rows change.
fn change_of(
    alloc: Global,
    merge: &Merge,
    rows: &Database,
    base: &Database,
    archive: Option<&Database>,
) -> Result<Option<DbChange>, AllocError>
    ensures { IfOk result (λ change. option_to_list change ≡ changes.change_for (Some merge.now)
        (Some rows.now) (Some base.now) (option_copied archive.entry)) }
{
    if !is_changed(alloc, merge, rows, base)? {
        return Ok(None);
    }
    Ok(Some(DbChange {
        rows: refiled(alloc, rows, merge)?,
        base: refiled_base(alloc, base, merge)?,
        archive: cleared_archive(alloc, archive)?,
    }))
}

// The change of one database, where it changes.
#[tactic(auto, unfolding(crate::specs::Changes::change_filed))]
fn change_for<D: Folder>(
    alloc: Global,
    desk: &Desk<D>,
    name: &DbName,
    merge: &Option<Merge>,
) -> Result<Option<DbChange>, AllocError>
    ensures { IfOk result (λ change. option_to_list change
        ≡ changes.change_filed (shelves_in desk.now) name.now merge.now) }
{
    let Some(merge) = merge else {
        return Ok(None);
    };
    let Some(rows) = desk.rows(name) else {
        return Ok(None);
    };
    let Some(base) = desk.base(name) else {
        return Ok(None);
    };
    change_of(alloc, merge, rows, base, desk.archive(name))
}

// Puts a change behind others, where there is one.
fn put_change(made: &mut Vec<DbChange>, change: Option<DbChange>) -> Result<(), AllocError>
    ensures { OnOk result (made.new.items ≡ made.old.items ++ option_to_list change) }
{
    if let Some(change) = change {
        made.push(change)?;
    }
    Ok(())
}

// What changes by these merges, one for each database, in byte order of their names.
pub(crate) fn changes_filed<D: Folder>(
    alloc: Global,
    desk: &Desk<D>,
    jobs: &[FilingJob],
    merges: &[Option<Merge>],
) -> Result<Vec<DbChange>, AllocError>
    requires { length merges.now ≡ length jobs.now }
    ensures { IfOk result (λ made. made.items
        ≡ changes.changes_filed (shelves_in desk.now) jobs.now merges.now) }
{
    let mut made = Vec::new(alloc);
    for (index, job) in jobs.iter().enumerate() {
        let change = change_for(alloc, desk, &job.name, &merges[index])?;
        put_change(&mut made, change)?;
    }
    Ok(made)
}
