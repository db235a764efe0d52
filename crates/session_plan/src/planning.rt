// What is planned for the databases of a session.
ghost use Rattle.std.specs.Prelude.{◌≡◌, IfOk, is_some, length};
ghost use Rattle.std.specs.Option.{option_copied};
ghost use Rattle.desk_store.specs.Views.{parted_in, shelves_in};
ghost use Rattle.session_plan.specs.Choosing.{action_or_sync, base_rows_by};
ghost use Rattle.session_plan.specs.Partings.{agrees_with};
ghost use Rattle.session_plan.specs.Planning.{ArePlanned, IsPlanUnder};
ghost use Rattle.session_plan.specs.Tasks.{records_of};

use crate::job::Job;
use crate::partings::agrees_with;
use crate::planned::Planned;
use conduit_rules::{Action, Plan, View, plan};
use desk_store::Desk;
use hs_folders::Folder;
use pdb_values::{Database, Record};
use std::alloc::{AllocError, Global};

// The records of a database that may not be there.
pub(crate) fn records_in(database: Option<&Database>) -> &[Record]
    ensures { result.now ≡ records_of (option_copied database.entry) }
{
    match database {
        Some(database) => database.records(),
        None => &[],
    }
}

// The base rows: none where the rows are missing.
pub(crate) fn base_records<'d>(
    rows: Option<&'d Database>,
    base: Option<&'d Database>,
) -> &'d [Record]
    ensures { result.now ≡ base_rows_by (option_copied rows.entry) (option_copied base.entry) }
{
    match rows {
        Some(_) => records_in(base),
        None => &[],
    }
}

// The action of a database that is not skipped.
fn action_of(action: Option<Action>) -> Action
    ensures { result ≡ action_or_sync action }
{
    match action {
        Some(action) => action,
        None => Action::Sync,
    }
}

// What is planned for one database.
fn plan_job<D: Folder>(
    alloc: Global,
    desk: &Desk<D>,
    agree: bool,
    job: &Job,
    view: &View,
) -> Result<Plan, AllocError>
    ensures { IfOk result (λ plan. IsPlanUnder (shelves_in desk.now)
        (agrees_with agree (parted_in desk.now)) job.now view.now plan) }
{
    let rows = desk.rows(&job.name);
    let base = base_records(rows, desk.base(&job.name));
    plan(
        alloc,
        view,
        records_in(rows),
        base,
        !agrees_with(desk, agree, &job.name),
        action_of(job.action),
    )
}

/// Plans what is done with each of these databases, from what was seen of it and from what the desktop's picked slot has. `agree`
/// says whether the marks of both sides agree; where they don't, or a database took no part in the slot's last session, its gone base
/// rows count.
pub fn plan_all<D: Folder>(
    alloc: Global,
    desk: &Desk<D>,
    agree: bool,
    jobs: Vec<Job>,
    views: Vec<View>,
) -> Result<Vec<Planned>, AllocError>
    requires { length views.items ≡ length jobs.items }
    ensures { IfOk result (λ planned.
        ArePlanned (shelves_in desk.now) (agrees_with agree (parted_in desk.now))
        jobs.items views.items planned.items) }
{
    let mut planned = Vec::new(alloc);
    for (job, view) in jobs.into_iter().zip(views) {
        let plan = plan_job(alloc, desk, agree, &job, &view)?;
        planned.push(Planned { job, view, plan })?;
    }
    Ok(planned)
}
