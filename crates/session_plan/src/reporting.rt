// What is told of each database of a session.
ghost use Rattle.std.specs.Prelude.{◌≡◌, IfOk, OnOk};
ghost use Rattle.desk_store.specs.Views.{shelves_in};
ghost use Rattle.session_plan.specs.PlannedLimits.{rows_planned};
ghost use Rattle.session_plan.specs.PlannedReports as reports;

use crate::counts::read_count;
use crate::limits::{archive_count, archived};
use crate::planned::Planned;
use desk_store::Desk;
use hs_folders::Folder;
use session_parts::{Counts, DbReport, Did};
use std::alloc::{AllocError, Global};

// A number of 32 bits, which is the greatest where it would be more.
fn told(count: usize) -> u32
    ensures { result ≡ reports.told count }
{
    u32::try_from(count).unwrap_or(u32::MAX)
}

// How many new entries the archive gets.
fn archived_count<D: Folder>(
    alloc: Global,
    desk: &Desk<D>,
    one: &Planned,
) -> Result<usize, AllocError>
    ensures { IfOk result (λ count. count
        ≡ reports.archived_planned (shelves_in desk.now) one.now) }
{
    let old = archived(desk, &one.job.name);
    let before = archive_count(alloc, old, &[])?;
    let after = archive_count(alloc, old, &one.plan.archive)?;
    Ok(after.saturating_sub(before))
}

// How a planned database is synchronised.
fn counts_of<D: Folder>(alloc: Global, desk: &Desk<D>, one: &Planned) -> Result<Counts, AllocError>
    ensures { IfOk result (λ counts. counts
        ≡ reports.counts_planned (shelves_in desk.now) one.now) }
{
    let plan = &one.plan;
    Ok(Counts {
        fast: one.job.fast,
        read: told(read_count(&one.view.seen)),
        replaced: told(plan.replace.len()),
        added: told(plan.adds.len()),
        purged: told(plan.purge.len()),
        archived: told(archived_count(alloc, desk, one)?),
        twice: told(plan.twice),
        rows: told(plan.kept.len().saturating_add(plan.adds.len())),
    })
}

// What is done with a planned database.
fn report_of<D: Folder>(
    alloc: Global,
    desk: &Desk<D>,
    one: &Planned,
) -> Result<DbReport, AllocError>
    ensures { IfOk result (λ report. report
        ≡ reports.report_planned (shelves_in desk.now) one.now) }
{
    let did = match one.job.skip {
        Some(skip) => Did::Skipped(skip),
        None => Did::Synced(counts_of(alloc, desk, one)?),
    };
    Ok(DbReport {
        name: one.job.name.copy(),
        did,
    })
}

/// What a session does with each of these databases, in their order: how it is synchronised, or why it is skipped. The desktop is
/// that before its commit.
#[tactic(auto, unfolding(crate::specs::PlannedReports::reports_planned))]
pub fn reports_of<D: Folder>(
    alloc: Global,
    desk: &Desk<D>,
    planned: &[Planned],
) -> Result<Vec<DbReport>, AllocError>
    ensures { IfOk result (λ made. made.items
        ≡ reports.reports_planned (shelves_in desk.now) planned.now) }
{
    let mut made = Vec::new(alloc);
    for one in planned {
        made.push(report_of(alloc, desk, one)?)?;
    }
    Ok(made)
}
