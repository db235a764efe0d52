// The databases whose categories a session brings together.
ghost use Rattle.std.specs.Prelude.{◌≡◌, ◌&&◌, IfOk, is_some};
ghost use Rattle.std.specs.Option.{option_copied};
ghost use Rattle.pdb_values.specs.NamedDatabases.{database_of};
ghost use Rattle.desk_store.specs.Views.{shelves_in};
ghost use Rattle.category_mirror.specs.Jobs as jobs;

use desk_store::Desk;
use desktop_session::UserWish;
use hs_folders::Folder;
use pdb_values::{Database, DbHead, DbName, PalmDate};
use session_parts::Skip;
use session_plan::{Job, Wishes, jobs_of};
use std::alloc::{AllocError, Global};

/// One database of a session that brings categories together.
#[derive(Drop)]
pub struct FilingJob {
    /// Its name.
    pub name: DbName,
    /// Why it is skipped, if it is.
    pub skip: Option<Skip>,
}

// Whether a database is there and holds records.
fn holds_records(database: Option<&Database>) -> bool
    ensures { result ≡ jobs.holds_records (option_copied database.entry) }
{
    match database {
        Some(database) => !database.head().holds_resources(),
        None => false,
    }
}

// The reason that stands before; one that is not whole is missing.
fn or_missing(reason: Option<Skip>, whole: bool) -> Option<Skip>
    ensures { result ≡ jobs.or_missing reason whole }
{
    match reason {
        Some(reason) => Some(reason),
        None if whole => None,
        None => Some(Skip::Missing),
    }
}

// Whether a head is there.
fn is_there(head: &Option<DbHead>) -> bool
    ensures { result ≡ is_some head.now }
{
    match head {
        Some(_) => true,
        None => false,
    }
}

// A database as a session that would synchronise it has it.
fn filing_job<D: Folder>(desk: &Desk<D>, job: &Job) -> FilingJob
    ensures { result ≡ record {
      name = job.now.name;
      skip = jobs.or_missing job.now.skip (jobs.is_whole job.now.handheld job.now.rows
          (database_of job.now.name (shelves_in desk.now).bases));
    } }
{
    let whole = is_there(&job.handheld)
        && is_there(&job.rows)
        && holds_records(desk.base(&job.name));
    FilingJob {
        name: job.name.copy(),
        skip: or_missing(job.skip, whole),
    }
}

/// The databases whose heads the handheld listed, and those that have rows in the picked slot, in byte order of their names. One is skipped
/// where a session that would synchronise it skips it, where the handheld lacks it, and where the desktop lacks its rows or its base rows.
pub fn filing_jobs<D: Folder>(
    alloc: Global,
    heads: &[DbHead],
    desk: &Desk<D>,
) -> Result<Vec<FilingJob>, AllocError>
    ensures { IfOk result (λ made. made.items ≡ jobs.filing_jobs heads.now (shelves_in desk.now)) }
{
    let wishes = Wishes {
        date: PalmDate::of_seconds(0),
        slow: false,
        user: UserWish::none(),
        actions: Vec::new(alloc),
    };
    let jobs = jobs_of(alloc, heads, desk, false, &wishes)?;
    let mut made = Vec::new(alloc);
    for job in &jobs {
        made.push(filing_job(desk, job))?;
    }
    Ok(made)
}
