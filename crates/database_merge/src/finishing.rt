// What a plan makes of both sides.
ghost use Rattle.std.specs.Prelude.{◌≡◌, ◌≤◌, ◌<◌, Err, IfOk, IfSome, OnOk, Some, false, length};
ghost use Rattle.std.specs.Option.{option_copied, option_or};
ghost use Rattle.pdb_values.specs.Heads.{holds_resources};
ghost use Rattle.session_plan.specs.Blocks.{block_over, block_with_bytes, blocks_of, with_blocks};
ghost use Rattle.session_plan.specs.Merges as merges;
ghost use Rattle.session_plan.specs.Heads as heads;
ghost use Rattle.session_plan.specs.Sizes as limits;
ghost use Rattle.database_merge.specs.Carrying.{IsCarried, plan_peak, plan_sizes};

use crate::both_sides::BothSides;
use crate::fault::WriteFault;
use crate::seeing::records_in;
use crate::writing::carry_out;
use conduit_rules::Plan;
use palm_device::{new_head, put_app, put_sort};
use pdb_values::{Database, Record};
use session_plan::{
    Sizes, beside, is_over, made_head, merged_archive, planned_base, planned_rows, refilled,
};
use std::alloc::{AllocError, Global};

// Writes the app block of rows, where it has bytes.
#[tactic(auto, using(crate::proofs::BlockLaws::over_none, crate::proofs::BlockLaws::over_some))]
fn write_app(alloc: Global, database: &mut Database, block: Option<&[u8]>) -> Result<(), AllocError>
    requires { IfSome block (λ bytes. length bytes.now ≤ 65500) }
    ensures { OnOk result (database.new ≡ record database.old {
      app = block_over (block_with_bytes (option_copied block.entry)) database.old.app;
    }) }
{
    let Some(bytes) = block else {
        return Ok(());
    };
    if bytes.is_empty() {
        return Ok(());
    }
    put_app(alloc, database, bytes)?;
    Ok(())
}

// Writes the sort block of rows, where it has bytes.
#[tactic(auto, using(crate::proofs::BlockLaws::over_none, crate::proofs::BlockLaws::over_some))]
fn write_sort(
    alloc: Global,
    database: &mut Database,
    block: Option<&[u8]>,
) -> Result<(), AllocError>
    requires { IfSome block (λ bytes. length bytes.now ≤ 65500) }
    ensures { OnOk result (database.new ≡ record database.old {
      sort = block_over (block_with_bytes (option_copied block.entry)) database.old.sort;
    }) }
{
    let Some(bytes) = block else {
        return Ok(());
    };
    if bytes.is_empty() {
        return Ok(());
    }
    put_sort(alloc, database, bytes)?;
    Ok(())
}

/// A database that the handheld lacks, as it makes one by the head of the desktop's rows, with their blocks.
pub(crate) fn new_on_handheld(alloc: Global, rows: &Database) -> Result<Database, AllocError>
    ensures { IfOk result (λ database. database ≡ with_blocks (blocks_of (Some rows.now))
        (merges.new_database (heads.made_head rows.now.head))) }
{
    let head = made_head(rows.head());
    let mut database = Database::new(
        alloc,
        new_head(
            head.name,
            head.kind,
            head.creator,
            head.attributes,
            head.version,
        ),
    );
    write_app(alloc, &mut database, rows.app())?;
    write_sort(alloc, &mut database, rows.sort())?;
    Ok(database)
}

/// Whether a plan would make too many rows, base rows or entries of the archive.
pub(crate) fn is_large(
    alloc: Global,
    plan: &Plan,
    archive: Option<&Database>,
) -> Result<bool, AllocError>
    ensures { IfOk result (λ large. large
        ≡ limits.is_over (plan_sizes plan.now (option_copied archive.entry))) }
{
    let rows = plan.kept.len().saturating_add(plan.adds.len());
    let archived = merged_archive(alloc, records_in(archive), &plan.archive)?;
    let sizes = Sizes {
        handhelds: 0,
        desktops: 0,
        records: 0,
        rows,
        base: rows.saturating_add(plan.gone.len()),
        archive: archived.len(),
    };
    Ok(is_over(&sizes))
}

// An archive of these entries; none where there are none.
fn archive_of(
    alloc: Global,
    rows: &Database,
    entries: Vec<Record>,
) -> Result<Option<Database>, AllocError>
    requires { holds_resources rows.now.head.attributes ≡ false }
    ensures { IfOk result (λ archive. archive ≡ merges.archive_of rows.now entries.items) }
{
    if entries.is_empty() {
        return Ok(None);
    }
    Ok(Some(beside(alloc, rows, entries)?))
}

// The first of two archives that is there.
fn first_of(made: Option<Database>, archive: Option<Database>) -> Option<Database>
    ensures { result ≡ option_or made archive }
{
    match made {
        Some(made) => Some(made),
        None => archive,
    }
}

/// Carries a plan out on the handheld's database, and makes of the desktop's rows what the desktop takes.
pub(crate) fn finish(
    alloc: Global,
    handheld: Database,
    rows: &Database,
    archive: Option<Database>,
    plan: &Plan,
) -> Result<BothSides, WriteFault>
    requires handheld { holds_resources handheld.head.attributes ≡ false }
    requires rows { holds_resources rows.now.head.attributes ≡ false }
    ensures carried { IfOk result (IsCarried plan.now archive handheld rows.now) }
    ensures full { result ≡ Err WriteFault.Full → 65535 < plan_peak plan.now handheld }
{
    let mut handheld = handheld;
    let given = carry_out(alloc, &mut handheld, plan)?;
    let kept = planned_rows(alloc, plan, &given)?;
    let known = planned_base(alloc, plan, &given)?;
    let entries = merged_archive(alloc, records_in(archive.as_ref()), &plan.archive)?;
    let base = beside(alloc, rows, known)?;
    let made = archive_of(alloc, rows, entries)?;
    let archive = first_of(made, archive);
    let rows = refilled(alloc, rows, kept)?;
    Ok(BothSides {
        handheld: Some(handheld),
        rows: Some(rows),
        base: Some(base),
        archive,
    })
}
