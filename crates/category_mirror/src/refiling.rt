// Rows whose categories are brought together with the handheld's.
ghost use Rattle.std.specs.Prelude.{◌≡◌, IfOk, false, map};
ghost use Rattle.pdb_values.specs.Heads.{holds_resources};
ghost use Rattle.category_mirror.specs.Refiled as made;
ghost use Rattle.category_mirror.specs.Refiled.{refiled_rows};

use crate::blocks::bytes_of;
use crate::merge::Merge;
use pdb_values::{Database, Record};
use session_plan::refilled;
use std::alloc::{AllocError, Global};

// A record once more, in the category that its number has in the merge.
fn refiled_record(alloc: Global, merge: &Merge, item: &Record) -> Result<Record, AllocError>
    ensures { IfOk result (λ copy. copy ≡ made.refiled_record merge.now.numbers item.now) }
{
    let mut content = item.content.copy(alloc)?;
    content.set_category(merge.category_of(item.content.category()));
    Ok(Record {
        id: item.id,
        deleted: item.deleted,
        dirty: item.dirty,
        busy: item.busy,
        content,
    })
}

// Records once more, each in its category.
fn refiled_records(
    alloc: Global,
    merge: &Merge,
    records: &[Record],
) -> Result<Vec<Record>, AllocError>
    ensures { IfOk result (λ copies. copies.items
        ≡ map (made.refiled_record merge.now.numbers) records.now) }
{
    let mut copies = Vec::new(alloc);
    for item in records {
        copies.push(refiled_record(alloc, merge, item)?)?;
    }
    Ok(copies)
}

/// Rows once more, with the merged table at the head of their block, which they get where they had none, and each record in the category that its number has in the merge.
/// Order, ids and flags stay. More than a block can have counts as if there were no memory for it.
pub fn refiled(alloc: Global, rows: &Database, merge: &Merge) -> Result<Database, AllocError>
    requires { holds_resources rows.now.head.attributes ≡ false }
    ensures { IfOk result (λ copy. copy ≡ refiled_rows merge.now rows.now) }
{
    let records = refiled_records(alloc, merge, rows.records())?;
    let block = merge.block(alloc, rows.app())?;
    let mut copy = refilled(alloc, rows, records)?;
    match copy.set_app(Some(block)) {
        Ok(()) => Ok(copy),
        Err(_) => Err(AllocError),
    }
}

// A base row once more, in the category that its number has in the merge; a gone one as it is.
fn refiled_base_row(alloc: Global, merge: &Merge, item: &Record) -> Result<Record, AllocError>
    ensures { IfOk result (λ copy. copy ≡ made.refiled_base_row merge.now.numbers item.now) }
{
    if !item.deleted {
        return refiled_record(alloc, merge, item);
    }
    Ok(Record {
        id: item.id,
        deleted: true,
        dirty: item.dirty,
        busy: item.busy,
        content: item.content.copy(alloc)?,
    })
}

// Base rows once more, each in its category.
fn refiled_base_rows(
    alloc: Global,
    merge: &Merge,
    records: &[Record],
) -> Result<Vec<Record>, AllocError>
    ensures { IfOk result (λ copies. copies.items
        ≡ map (made.refiled_base_row merge.now.numbers) records.now) }
{
    let mut copies = Vec::new(alloc);
    for item in records {
        copies.push(refiled_base_row(alloc, merge, item)?)?;
    }
    Ok(copies)
}

/// Base rows once more, each that isn't gone in the category that its number has in the merge, as the rows are that they belong to.
/// All else of them stays.
pub fn refiled_base(alloc: Global, base: &Database, merge: &Merge) -> Result<Database, AllocError>
    requires { holds_resources base.now.head.attributes ≡ false }
    ensures { IfOk result (λ copy. copy ≡ made.refiled_base merge.now base.now) }
{
    let records = refiled_base_rows(alloc, merge, base.records())?;
    refilled(alloc, base, records)
}

// Whether the category of a record has another number in the merge.
fn is_moved(merge: &Merge, item: &Record) -> bool
    ensures { result ≡ made.is_moved merge.now.numbers item.now }
{
    let category = item.content.category();
    merge.category_of(category).number() != category.number()
}

// How many of these records have another category then.
pub(crate) fn moved_count(merge: &Merge, records: &[Record]) -> usize
    ensures { result ≡ made.moved_count merge.now.numbers records.now }
{
    records.iter().filter(|item| is_moved(merge, item)).count()
}

/// Whether rows change: their block does, or the category of a record.
pub fn is_refiled(alloc: Global, rows: &Database, merge: &Merge) -> Result<bool, AllocError>
    ensures { IfOk result (λ is. is ≡ made.is_refiled merge.now rows.now) }
{
    let begins = merge.begins(alloc, bytes_of(rows.app()))?;
    Ok(!begins || moved_count(merge, rows.records()) != 0)
}
