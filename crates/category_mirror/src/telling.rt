// What is told of each database.
ghost use Rattle.std.specs.Prelude.{◌≡◌, ◌≤◌, IfOk, length};
ghost use Rattle.std.specs.Option.{option_copied};
ghost use Rattle.desk_store.specs.Views.{shelves_in};
ghost use Rattle.session_plan.specs.Tasks as tasks;
ghost use Rattle.category_mirror.specs.Courses as courses;

use crate::job::FilingJob;
use crate::merge::Merge;
use crate::refiling::moved_count;
use desk_store::Desk;
use hs_folders::Folder;
use pdb_values::{Database, Record};
use session_parts::{DbReport, Did, FiledCounts, Skip};
use std::alloc::{AllocError, Global};

// The records of a database that may not be there.
fn records_of(database: Option<&Database>) -> &[Record]
    ensures records { result.now ≡ tasks.records_of (option_copied database.entry) }
    ensures few { length result.now ≤ 65535 }
{
    match database {
        Some(database) => database.records(),
        None => &[],
    }
}

// What was done with a database.
fn did_of(job: &FilingJob, merge: &Option<Merge>, rows: Option<&Database>) -> Did
    ensures { result ≡ courses.did_of job.now.skip merge.now (option_copied rows.entry) }
{
    if let Some(skip) = job.skip {
        return Did::Skipped(skip);
    }
    match merge {
        Some(merge) => Did::Filed(FiledCounts {
            used: merge.used_count(),
            moved: moved_count(merge, records_of(rows)) as u32,
        }),
        None => Did::Skipped(Skip::Blocks),
    }
}

// What is told of these databases, by the merge of each.
pub(crate) fn reports_filed<D: Folder>(
    alloc: Global,
    desk: &Desk<D>,
    jobs: &[FilingJob],
    merges: &[Option<Merge>],
) -> Result<Vec<DbReport>, AllocError>
    requires { length merges.now ≡ length jobs.now }
    ensures { IfOk result (λ made. made.items
        ≡ courses.reports_filed (shelves_in desk.now) jobs.now merges.now) }
{
    let mut made = Vec::new(alloc);
    for (index, job) in jobs.iter().enumerate() {
        made.push(DbReport {
            name: job.name.copy(),
            did: did_of(job, &merges[index], desk.rows(&job.name)),
        })?;
    }
    Ok(made)
}
