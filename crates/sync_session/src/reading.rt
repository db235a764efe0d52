// What a session reads of one database.
ghost use Rattle.std.specs.Prelude.{◌≡◌, ◌++◌, ◌∷◌, [], IfErr, OnOk, false, true};
ghost use Rattle.std.specs.Option.{option_copied};
ghost use Rattle.pdb_values.specs.NamedDatabases.{database_of};
ghost use Rattle.desk_store.specs.Views.{shelves_in};
ghost use Rattle.desktop_session.specs.declared.fault.SessionFault.TheVariants as session;
ghost use Rattle.desktop_session.specs.Answers.{mapped};
ghost use Rattle.desktop_session.specs.Asking.{opens};
ghost use Rattle.desktop_session.specs.Following.{Follows};
ghost use Rattle.mirrors.specs.ReadInquiries.{reads_fast, reads_slowly};
ghost use Rattle.session_parts.specs.Inquiries.{each, under};
ghost use Rattle.sync_session.specs.Inquiries as inquiries;
ghost use Rattle.sync_session.specs.Inquiries.{reads_job, each_seen};
ghost use Rattle.sync_session.specs.Readings.{ShowsEach, ShowsName, name_reads, reads_under};
ghost use Rattle.session_parts.specs.Spans.{Spans};
ghost use Rattle.session_parts.specs.Stretches.{SpansEach};
ghost use Rattle.session_plan.specs.Tasks.{records_of};

use conduit_rules::View;
use desk_store::Desk;
use desktop_session::{Linked, SessionFault};
use dlp_commands::Link;
use hs_folders::Folder;
use mirrors::read_slowly;
use pdb_values::{DbName, Record};
use session_plan::Job;
use std::alloc::{AllocError, Global};

/// Reads every record of the handheld's database of a name. The database is opened for it and closed. After a refusal it may be left
/// open, and only `halt` may follow.
pub fn read_one<L: Link>(
    alloc: Global,
    linked: &mut Linked<L>,
    name: &DbName,
) -> Result<View, SessionFault>
    requires { linked.old.abandoned ≡ false }
    ensures spans { let told = L.talk linked.old.link in
        Spans L.talk L.since L.fault L.downs (name_reads false name.now [] told)
        (ShowsName false name.now [] told) linked.old linked.new result }
    ensures follows { Follows L.Link (under (opens 0xD0 name.now) reads_slowly) linked.old.link
        linked.new.link (mapped (λ view. view.seen.items) result) }
{
    let mut opened = linked.open(name)?;
    let view = match read_slowly(alloc, &mut opened) {
        Ok(view) => view,
        Err(fault) => {
            opened.abandon();
            return Err(fault);
        }
    };
    opened.close()?;
    Ok(view)
}

/// Reads what changed in the handheld's database of a name since the base, as a fast reading does. The database is opened for it and
/// closed. After a refusal it may be left open, and only `halt` may follow.
pub fn read_changed<L: Link>(
    alloc: Global,
    linked: &mut Linked<L>,
    name: &DbName,
    base: &[Record],
) -> Result<View, SessionFault>
    requires { linked.old.abandoned ≡ false }
    ensures spans { let told = L.talk linked.old.link in
        Spans L.talk L.since L.fault L.downs (name_reads true name.now base.now told)
        (ShowsName true name.now base.now told) linked.old linked.new result }
    ensures follows { Follows L.Link (under (opens 0xD0 name.now) (reads_fast base.now))
        linked.old.link linked.new.link (mapped (λ view. view.seen.items) result) }
{
    let mut opened = linked.open(name)?;
    let view = match mirrors::read_fast(alloc, &mut opened, base) {
        Ok(view) => view,
        Err(fault) => {
            opened.abandon();
            return Err(fault);
        }
    };
    opened.close()?;
    Ok(view)
}

// The base rows of a name; none where there are none.
fn base_rows<'d, D: Folder>(desk: &'d Desk<D>, name: &DbName) -> &'d [Record]
    ensures { result.now ≡ records_of (database_of name.now (shelves_in desk.now).bases) }
{
    match desk.base(name) {
        Some(base) => base.records(),
        None => &[],
    }
}

// A view of no records.
pub(crate) fn no_view(alloc: Global) -> View
    ensures { result.seen.items ≡ [] }
{
    View {
        seen: Vec::new(alloc),
    }
}

// Reads a database that is opened: what changed since the base, or all.
fn read_opened<L: Link>(
    alloc: Global,
    linked: &mut Linked<L>,
    name: &DbName,
    fast: bool,
    base: &[Record],
) -> Result<View, SessionFault>
    requires { linked.old.abandoned ≡ false }
    ensures spans { let told = L.talk linked.old.link in
        Spans L.talk L.since L.fault L.downs (name_reads fast name.now base.now told)
        (ShowsName fast name.now base.now told) linked.old linked.new result }
    ensures follows { Follows L.Link
        (under (opens 0xD0 name.now) (inquiries.reads_under fast base.now)) linked.old.link
        linked.new.link (mapped (λ view. view.seen.items) result) }
{
    if fast {
        read_changed(alloc, linked, name, base)
    } else {
        read_one(alloc, linked, name)
    }
}

// Reads one database of a session; what is skipped or what the handheld lacks is not read.
fn read_job<L: Link, D: Folder>(
    alloc: Global,
    linked: &mut Linked<L>,
    desk: &Desk<D>,
    job: &Job,
) -> Result<View, SessionFault>
    requires { linked.old.abandoned ≡ false }
    ensures spans { let told = L.talk linked.old.link in
        Spans L.talk L.since L.fault L.downs (reads_under (shelves_in desk.now) told job.now)
        (ShowsEach (shelves_in desk.now) told job.now) linked.old linked.new result }
    ensures follows { Follows L.Link (reads_job (shelves_in desk.now) job.now) linked.old.link
        linked.new.link (mapped (λ view. view.seen.items) result) }
{
    match &job.skip {
        Some(_) => Ok(no_view(alloc)),
        None => match &job.handheld {
            Some(_) => {
                let base = base_rows(desk, &job.name);
                read_opened(alloc, linked, &job.name, job.fast, base)
            }
            None => Ok(no_view(alloc)),
        },
    }
}

// Puts the view of one database behind those of others.
fn push_view(views: &mut Vec<View>, view: View) -> Result<(), SessionFault>
    ensures views { OnOk result (views.new.items ≡ views.old.items ++ view ∷ []) }
    ensures memory { IfErr result (λ fault. fault ≡ session.NoMemory) }
{
    views.push(view).map_err(AllocError::from)?;
    Ok(())
}

/// Reads each of these databases of the handheld, one after another: what changed since the base rows of the desktop's picked slot,
/// where a job says so, and else every record. A database that is skipped, or that the handheld lacks, is not opened, and its view has
/// no records.
pub fn read_all<L: Link, D: Folder>(
    alloc: Global,
    linked: &mut Linked<L>,
    desk: &Desk<D>,
    jobs: &[Job],
) -> Result<Vec<View>, SessionFault>
    requires { linked.old.abandoned ≡ false }
    ensures reads { SpansEach L.talk L.since L.fault L.downs (reads_under (shelves_in desk.now))
        (ShowsEach (shelves_in desk.now)) jobs.now
        (λ made. made.items) linked.old linked.new result }
    ensures follows { Follows L.Link (each (reads_job (shelves_in desk.now)) [] jobs.now)
        linked.old.link linked.new.link (mapped (λ made. each_seen made.items) result) }
{
    let mut views = Vec::new(alloc);
    for job in jobs {
        let view = read_job(alloc, linked, desk, job)?;
        push_view(&mut views, view)?;
    }
    Ok(views)
}
