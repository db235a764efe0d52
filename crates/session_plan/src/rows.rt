// The desktop's rows once a database is merged.
ghost use Rattle.std.specs.Prelude.{◌≡◌, ◌<◌, ◌++◌, ◌∷◌, [], IfOk, OnOk, length, map};
ghost use Rattle.conduit_rules.specs.ById.{id_bound};
ghost use Rattle.conduit_rules.specs.declared.view.Seen.{Seen as Entry};
ghost use Rattle.record_merge.specs.Merging.{gone_record, settled_record};
ghost use Rattle.record_merge.specs.Writes.{numbered};
ghost use Rattle.mirrors.specs.Entries.{AreBounded};
ghost use Rattle.session_plan.specs.Rows as rows_of;

use crate::archive::settled;
use conduit_rules::{Plan, Seen, SeenState, View};
use mirrors::in_order;
use pdb_values::{Content, Record, RecordId};
use std::alloc::{AllocError, Global};

// A row, as an entry of a view.
#[tactic(auto, unfolding(conduit_rules::specs::ById::id_bound))]
fn row_seen(alloc: Global, id: RecordId, content: &Content) -> Result<Seen, AllocError>
    ensures seen { IfOk result (λ seen. seen ≡ rows_of.row_seen (id, content.now)) }
    ensures bounded { IfOk result (λ seen. seen.id < id_bound) }
{
    Ok(Seen {
        id,
        state: SeenState::Live,
        content: content.copy(alloc)?,
    })
}

// Puts a row behind others.
fn put_row(
    alloc: Global,
    rows: &mut Vec<Seen>,
    id: RecordId,
    content: &Content,
) -> Result<(), AllocError>
    ensures rows { OnOk result (rows.new.items
        ≡ rows.old.items ++ rows_of.row_seen (id, content.now) ∷ []) }
    ensures bounded { OnOk result (AreBounded rows.old.items → AreBounded rows.new.items) }
{
    let row = row_seen(alloc, id, content)?;
    rows.push(row)?;
    Ok(())
}

// Puts what is kept behind others.
fn put_kept(
    alloc: Global,
    rows: &mut Vec<Seen>,
    kept: &[(RecordId, Content)],
) -> Result<(), AllocError>
    ensures rows { OnOk result (rows.new.items ≡ rows.old.items ++ map rows_of.row_seen kept.now) }
    ensures bounded { OnOk result (AreBounded rows.old.items → AreBounded rows.new.items) }
{
    for entry in kept {
        put_row(alloc, rows, entry.0, &entry.1)?;
    }
    Ok(())
}

// Puts new records behind others, each under its id.
fn put_added(
    alloc: Global,
    rows: &mut Vec<Seen>,
    given: &[RecordId],
    adds: &[Content],
) -> Result<(), AllocError>
    requires { length given.now ≡ length adds.now }
    ensures rows { OnOk result (rows.new.items
        ≡ rows.old.items ++ map rows_of.row_seen (numbered given.now adds.now)) }
    ensures bounded { OnOk result (AreBounded rows.old.items → AreBounded rows.new.items) }
{
    for (index, content) in adds.iter().enumerate() {
        put_row(alloc, rows, given[index], content)?;
    }
    Ok(())
}

// The entries of a view as live and clean records, with their contents.
fn settled_all(alloc: Global, view: View) -> Result<Vec<Record>, AllocError>
    ensures { IfOk result (λ rows. rows.items
        ≡ map (λ (seen : Entry). settled_record (seen.id, seen.content)) view.seen.items) }
{
    let mut rows = Vec::new(alloc);
    for seen in view.seen {
        rows.push(settled(seen.id, seen.content))?;
    }
    Ok(rows)
}

/// The rows of a database once it is merged: what its plan keeps and its new records, which got these ids, as live and clean records in
/// rising ids.
pub fn planned_rows(
    alloc: Global,
    plan: &Plan,
    given: &[RecordId],
) -> Result<Vec<Record>, AllocError>
    requires { length given.now ≡ length plan.now.adds.items }
    ensures { IfOk result (λ rows. rows.items ≡ rows_of.planned_rows plan.now given.now) }
{
    let mut rows = Vec::new(alloc);
    put_kept(alloc, &mut rows, &plan.kept)?;
    put_added(alloc, &mut rows, given, &plan.adds)?;
    let view = in_order(rows)?;
    settled_all(alloc, view)
}

// A base record that has the delete bit.
fn gone_entry(alloc: Global, id: RecordId, content: &Content) -> Result<Record, AllocError>
    ensures { IfOk result (λ made. made ≡ gone_record (id, content.now)) }
{
    Ok(Record {
        id,
        deleted: true,
        dirty: false,
        busy: false,
        content: content.copy(alloc)?,
    })
}

// Puts gone records behind others.
fn put_gone(
    alloc: Global,
    base: &mut Vec<Record>,
    gone: &[(RecordId, Content)],
) -> Result<(), AllocError>
    ensures { OnOk result (base.new.items ≡ base.old.items ++ map gone_record gone.now) }
{
    for entry in gone {
        base.push(gone_entry(alloc, entry.0, &entry.1)?)?;
    }
    Ok(())
}

/// The base rows of a database once it is merged: its rows, and then what is gone.
pub fn planned_base(
    alloc: Global,
    plan: &Plan,
    given: &[RecordId],
) -> Result<Vec<Record>, AllocError>
    requires { length given.now ≡ length plan.now.adds.items }
    ensures { IfOk result (λ base. base.items ≡ rows_of.planned_base plan.now given.now) }
{
    let mut base = planned_rows(alloc, plan, given)?;
    put_gone(alloc, &mut base, &plan.gone)?;
    Ok(base)
}
