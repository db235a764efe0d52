// The categories of a handheld's databases, brought together with the desktop's.
ghost use Rattle.std.specs.Prelude.{◌≡◌, ◌∷◌, ◌++◌, [], IfErr, IfOk, OnOk, false};
ghost use Rattle.std.specs.Option.{option_copied};
ghost use Rattle.desktop_session.specs.declared.fault.SessionFault.TheVariants as session;
ghost use Rattle.desk_store.specs.Views.{shelves_in};
ghost use Rattle.mirrors.specs.Asks.{Asks};
ghost use Rattle.session_parts.specs.Causes.{IsLater};
ghost use Rattle.session_parts.specs.Spans.{Spans};
ghost use Rattle.session_parts.specs.Stretches.{SpansEach};
ghost use Rattle.category_mirror.specs.FilingActs as acts;
ghost use Rattle.category_mirror.specs.FilingActs.{IsMergeTold, SaysFiled, SaysMerge, filed_under, files_under, files_of, writes_where};

use crate::blocks::{blocks_merge, written_block};
use crate::job::FilingJob;
use crate::merge::Merge;
use desk_store::Desk;
use desktop_session::{Linked, OpenDb, SessionFault};
use dlp_commands::Link;
use hs_folders::Folder;
use pdb_values::{Database, DbName};
use std::alloc::{AllocError, Global};

// Writes an app block, where there is one. More than a block can have counts as if there were no memory for it.
fn write_where<L: Link>(db: &mut OpenDb<'_, L>, block: Option<&[u8]>) -> Result<(), SessionFault>
    ensures same_reference { db.new.linked.ghost_name ≡ db.old.linked.ghost_name }
    ensures same_handle { db.new.handle ≡ db.old.handle }
    ensures asks { Asks L.talk L.since L.fault L.downs
        (writes_where db.old.handle (option_copied block.entry))
        db.old.linked.now db.new.linked.now result }
    ensures cause { IfErr result (IsLater (L.talk db.new.linked.now.link)
        (L.fault db.new.linked.now.link)) }
{
    let Some(bytes) = block else {
        return Ok(());
    };
    if bytes.len() > Database::LIMIT {
        return Err(SessionFault::NoMemory);
    }
    db.write_app(bytes)
}

// Reads the block of an open database, and writes the merged one where it differs.
fn file_open<L: Link>(
    alloc: Global,
    db: &mut OpenDb<'_, L>,
    rows_app: Option<&[u8]>,
) -> Result<Option<Merge>, SessionFault>
    ensures same_reference { db.new.linked.ghost_name ≡ db.old.linked.ghost_name }
    ensures same_handle { db.new.handle ≡ db.old.handle }
    ensures asks { Asks L.talk L.since L.fault L.downs
        (filed_under (option_copied rows_app.entry) (L.talk db.old.linked.now.link) db.old.handle)
        db.old.linked.now db.new.linked.now result }
    ensures told { IfOk result (IsMergeTold (option_copied rows_app.entry)
        (L.talk db.old.linked.now.link) db.old.handle) }
    ensures cause { IfErr result (IsLater (L.talk db.new.linked.now.link)
        (L.fault db.new.linked.now.link)) }
{
    let app = db.read_app(alloc)?;
    let merge = blocks_merge(alloc, app.as_deref(), rows_app)?;
    let written = written_block(alloc, app.as_deref(), &merge)?;
    write_where(db, written.as_deref())?;
    Ok(merge)
}

/// Brings the categories of one database together with those of a block of the desktop: reads the handheld's block, and writes the merged
/// one where it differs. The database is opened for it and closed. After a refusal it may be left open, and only `halt` may follow.
///
/// Answers how they come together, where both blocks begin with a table, or one does and the other side has none, which then gets that one.
pub fn file_one<L: Link>(
    alloc: Global,
    linked: &mut Linked<L>,
    name: &DbName,
    rows_app: Option<&[u8]>,
) -> Result<Option<Merge>, SessionFault>
    requires { linked.old.abandoned ≡ false }
    ensures spans { let old = L.talk linked.old.link in
        let app = option_copied rows_app.entry in
        Spans L.talk L.since L.fault L.downs (files_of name.now app old)
        (SaysMerge name.now app old) linked.old linked.new result }
{
    let mut opened = linked.open(name)?;
    let merge = match file_open(alloc, &mut opened, rows_app) {
        Ok(merge) => merge,
        Err(fault) => {
            opened.abandon();
            return Err(fault);
        }
    };
    opened.close()?;
    Ok(merge)
}

// The app block of a slot's rows.
fn rows_app<'d, D: Folder>(desk: &'d Desk<D>, name: &DbName) -> Option<&'d [u8]>
    ensures { option_copied result ≡ acts.rows_app (shelves_in desk.entry.now) name.now }
{
    match desk.rows(name) {
        Some(rows) => rows.app(),
        None => None,
    }
}

// Brings the categories of one database together, unless it is skipped.
fn file_job<L: Link, D: Folder>(
    alloc: Global,
    linked: &mut Linked<L>,
    desk: &Desk<D>,
    job: &FilingJob,
) -> Result<Option<Merge>, SessionFault>
    requires { linked.old.abandoned ≡ false }
    ensures spans { let told = L.talk linked.old.link in
        Spans L.talk L.since L.fault L.downs (files_under (shelves_in desk.now) told job.now)
        (SaysFiled (shelves_in desk.now) told job.now) linked.old linked.new result }
{
    match &job.skip {
        Some(_) => Ok(None),
        None => file_one(alloc, linked, &job.name, rows_app(desk, &job.name)),
    }
}

// Puts a merge behind the others.
fn push_merge(merges: &mut Vec<Option<Merge>>, merge: Option<Merge>) -> Result<(), SessionFault>
    ensures merges { OnOk result (merges.new.items ≡ merges.old.items ++ merge ∷ []) }
    ensures memory { IfErr result (λ fault. fault ≡ session.NoMemory) }
{
    merges.push(merge).map_err(AllocError::from)?;
    Ok(())
}

/// Brings the categories of each of these databases together, one after another, as `file_one` does with the block of the desktop's rows.
/// One that is skipped is not opened.
pub fn file_all<L: Link, D: Folder>(
    alloc: Global,
    linked: &mut Linked<L>,
    desk: &Desk<D>,
    jobs: &[FilingJob],
) -> Result<Vec<Option<Merge>>, SessionFault>
    requires { linked.old.abandoned ≡ false }
    ensures files { SpansEach L.talk L.since L.fault L.downs (files_under (shelves_in desk.now))
        (SaysFiled (shelves_in desk.now)) jobs.now (λ made. made.items) linked.old linked.new
        result }
{
    let mut merges = Vec::new(alloc);
    for job in jobs {
        let merge = file_job(alloc, linked, desk, job)?;
        push_merge(&mut merges, merge)?;
    }
    Ok(merges)
}
