// A session that brings the categories of both sides together, from the greeting to the end.
ghost use Rattle.std.specs.Prelude.{◌≡◌, ◌≤◌, ◌⊎◌, IfErr, IfOk, false, length};
ghost use Rattle.desk_store.specs.Desks.{IsDesk};
ghost use Rattle.desk_store.specs.Views.{shelves_in};
ghost use Rattle.desktop_session.specs.Seats.{no_wish, seat_for as seat_of};
ghost use Rattle.desktop_session.specs.declared.fault.SessionFault.TheVariants as session;
ghost use Rattle.session_parts.specs.declared.stop.Stop.TheVariants as stops;
ghost use Rattle.mirrors.specs.Asks.{Asks};
ghost use Rattle.session_parts.specs.Causes.{IsLater};
ghost use Rattle.session_parts.specs.Leaving.{Leaves};
ghost use Rattle.session_parts.specs.Meets.{IsSeated};
ghost use Rattle.session_parts.specs.Rests.{WhereAtRest};
ghost use Rattle.session_plan.specs.Fits.{Rise};
ghost use Rattle.category_mirror.specs.Changes.{AreCommittable, KeepsParted, changes_filed as changes_of};
ghost use Rattle.category_mirror.specs.Courses.{Carries, Files, FilingRan, Finishes, Marks as MarksAndCommits, Turns, picked_for};
ghost use Rattle.category_mirror.specs.Courses.{reports_filed as reports_of, stopped as left_by};
ghost use Rattle.category_mirror.specs.FilingActs.{marks_for, marks_unless};
ghost use Rattle.category_mirror.specs.FilingEnds.{FilingEnds};
ghost use Rattle.category_mirror.specs.Jobs.{names_filed};
ghost use Rattle.category_mirror.specs.Leaving.{LeavesFolder};
ghost use Rattle.category_mirror.specs.Sides.{filing_of};

use crate::changing::changes_filed;
use crate::committing::{commit_filed, may_commit};
use crate::filing::file_all;
use crate::job::{FilingJob, filing_jobs};
use crate::merge::Merge;
use crate::telling::reports_filed;
use desk_store::{DbChange, Desk};
use desktop_session::{Halted, Linked, SessionFault, UserWish, seat_for};
use dlp_commands::Link;
use folder_files::{Parted, same_parted};
use hs_folders::Folder;
use pdb_values::Marks;
use session_parts::{DbReport, Met, Outcome, Stop, meet_over};
use session_plan::begun_user;
use std::alloc::{AllocError, Global};

// A session that stopped, and the desktop as it is.
fn stopped<L: Link, D: Folder>(link: L, desk: Desk<D>, stop: Stop) -> Outcome<L, D>
    ensures { result ≡ left_by link desk.folder stop }
{
    Outcome {
        link,
        folder: desk.into_folder(),
        end: Err(stop),
    }
}

// The link of a session that goes no further.
fn link_of<L: Link>(linked: Linked<L>) -> L
    ensures { result ≡ linked.link }
{
    let Halted { link, .. } = linked.halt(SessionFault::NoMemory);
    link
}

// The session is ended.
fn finish<L: Link, D: Folder>(
    linked: Linked<L>,
    desk: Desk<D>,
    reports: Vec<DbReport>,
) -> Outcome<L, D>
    requires { linked.abandoned ≡ false }
    ensures { Finishes L.talk L.since L.fault L.downs reports linked desk.folder result }
{
    match linked.finish() {
        Ok(ended) => Outcome {
            link: ended.link,
            folder: desk.into_folder(),
            end: Ok(reports),
        },
        Err(Halted { link, cause }) => stopped(link, desk, Stop::Session(cause)),
    }
}

// What the desktop gets, and what is told of it.
#[derive(Drop)]
struct Prepared {
    changes: Vec<DbChange>,
    parted: Vec<Parted>,
    reports: Vec<DbReport>,
}

// What changes on the desktop by these merges, and what is told of each database. What the desktop would not take counts as if there were
// no memory for it.
fn prepare<D: Folder>(
    alloc: Global,
    desk: &Desk<D>,
    jobs: &[FilingJob],
    merges: &[Option<Merge>],
) -> Result<Prepared, AllocError>
    requires rise { Rise (names_filed jobs.now) }
    requires count { length merges.now ≡ length jobs.now }
    ensures changes { IfOk result (λ prepared. prepared.changes.items
        ≡ changes_of (shelves_in desk.now) jobs.now merges.now) }
    ensures reports { IfOk result (λ prepared. prepared.reports.items
        ≡ reports_of (shelves_in desk.now) jobs.now merges.now) }
    ensures fit { IfOk result (λ prepared. AreCommittable prepared.changes.items desk.now) }
    ensures kept { IfOk result (λ prepared. KeepsParted prepared.parted.items desk.now) }
{
    let changes = changes_filed(alloc, desk, jobs, merges)?;
    let reports = reports_filed(alloc, desk, jobs, merges)?;
    let parted = same_parted(alloc, desk.parted())?;
    if !may_commit(desk, &changes) {
        return Err(AllocError);
    }
    Ok(Prepared {
        changes,
        parted,
        reports,
    })
}

// Marks the handheld as one that knows no desktop.
fn mark<L: Link>(linked: &mut Linked<L>) -> Result<(), SessionFault>
    requires { linked.old.abandoned ≡ false }
    ensures asks { Asks L.talk L.since L.fault L.downs (marks_unless false linked.old.user)
        linked.old linked.new result }
    ensures cause { IfErr result (IsLater (L.talk linked.new.link) (L.fault linked.new.link)) }
{
    let user = begun_user(linked.user());
    linked.mark(&user, 0x40)
}

// Where the desktop's rows change, the handheld is to know no desktop, so that the next session reads all of it.
fn mark_where<L: Link>(linked: &mut Linked<L>, changes: &[DbChange]) -> Result<(), SessionFault>
    requires { linked.old.abandoned ≡ false }
    ensures asks { Asks L.talk L.since L.fault L.downs (marks_for changes.now linked.old.user)
        linked.old linked.new result }
    ensures cause { IfErr result (IsLater (L.talk linked.new.link) (L.fault linked.new.link)) }
{
    let known = linked.user().pc;
    if changes.is_empty() {
        return Ok(());
    }
    if known == 0 {
        return Ok(());
    }
    mark(linked)
}

// The desktop commits what changes, and then the session is ended.
fn commit<L: Link, D: Folder>(linked: Linked<L>, desk: Desk<D>, prepared: Prepared) -> Outcome<L, D>
    requires open { linked.abandoned ≡ false }
    requires fit { AreCommittable prepared.changes.items desk }
    requires kept { KeepsParted prepared.parted.items desk }
    ensures { Carries L.talk L.since L.fault L.downs D.contents D.moments D.paths D.faults
        prepared.changes.items prepared.reports linked desk result }
{
    let Prepared {
        changes,
        parted,
        reports,
    } = prepared;
    match commit_filed(desk, changes, parted) {
        Ok(desk) => finish(linked, desk, reports),
        Err((fault, folder)) => Outcome {
            link: link_of(linked),
            folder,
            end: Err(Stop::from(fault)),
        },
    }
}

// The handheld is marked where the desktop's rows change, and the desktop commits what changes.
fn mark_and_commit<L: Link, D: Folder>(
    linked: Linked<L>,
    desk: Desk<D>,
    prepared: Prepared,
) -> Outcome<L, D>
    requires open { linked.abandoned ≡ false }
    requires fit { AreCommittable prepared.changes.items desk }
    requires kept { KeepsParted prepared.parted.items desk }
    ensures { MarksAndCommits L.talk L.since L.fault L.downs D.contents D.moments D.paths D.faults
        prepared.changes.items prepared.reports linked desk result }
{
    let mut linked = linked;
    match mark_where(&mut linked, &prepared.changes) {
        Ok(()) => commit(linked, desk, prepared),
        Err(cause) => stopped(link_of(linked), desk, Stop::Session(cause)),
    }
}

// The desktop gets what the merges change of it.
fn turn<L: Link, D: Folder>(
    alloc: Global,
    linked: Linked<L>,
    desk: Desk<D>,
    jobs: &[FilingJob],
    merges: &[Option<Merge>],
) -> Outcome<L, D>
    requires open { linked.abandoned ≡ false }
    requires rise { Rise (names_filed jobs.now) }
    requires count { length merges.now ≡ length jobs.now }
    ensures { Turns L.talk L.since L.fault L.downs D.contents D.moments D.paths D.faults jobs.now
        merges.now linked desk result
        ⊎ (result ≡ left_by linked.link desk.folder (stops.Session session.NoMemory)) }
{
    match prepare(alloc, &desk, jobs, merges) {
        Ok(prepared) => mark_and_commit(linked, desk, prepared),
        Err(AllocError) => stopped(link_of(linked), desk, Stop::Session(SessionFault::NoMemory)),
    }
}

// The slot of the handheld's user is picked, and the categories are brought together.
fn file_met<L: Link, D: Folder>(
    alloc: Global,
    met: Met<L>,
    desk: Desk<D>,
    marks: &[Marks],
) -> Outcome<L, D>
    requires open { met.linked.abandoned ≡ false }
    requires some { 1 ≤ length marks.now }
    requires room { length marks.now ≤ 16 }
    requires count { length marks.now ≡ length desk.slots }
    requires seated { IsSeated (seat_of marks.now no_wish met.linked.user) }
    ensures { Files L.talk L.since L.fault L.downs D.contents D.moments D.paths D.faults met
        (picked_for marks.now met.linked.user desk) result }
{
    let Met { linked, heads } = met;
    let mut linked = linked;
    let mut desk = desk;
    desk.pick(seat_for(marks, &UserWish::none(), linked.user()));
    match filing_jobs(alloc, &heads, &desk) {
        Ok(jobs) => match file_all(alloc, &mut linked, &desk, &jobs) {
            Ok(merges) => turn(alloc, linked, desk, &jobs, &merges),
            Err(cause) => stopped(link_of(linked), desk, Stop::Session(cause)),
        },
        Err(AllocError) => stopped(link_of(linked), desk, Stop::Session(SessionFault::NoMemory)),
    }
}

// A session from its beginning.
fn run<L: Link, D: Folder>(alloc: Global, link: L, desk: Desk<D>) -> Outcome<L, D>
    requires { L.begun link ≡ false }
    ensures { FilingRan L.talk L.since L.fault L.downs D.contents D.moments D.paths D.faults
        link desk result }
{
    match desk.all_marks(alloc) {
        Ok(marks) => match meet_over(alloc, link, &marks, &UserWish::none()) {
            Ok(met) => file_met(alloc, met, desk, &marks),
            Err(Halted { link, cause }) => stopped(link, desk, Stop::Session(cause)),
        },
        Err(AllocError) => stopped(link, desk, Stop::Session(SessionFault::NoMemory)),
    }
}

/// Runs a session that brings the categories of a handheld behind a link and of a desktop together, from the wake to the end: both sides
/// meet, where the handheld's user has a slot; the block of each database is read, and the merged one written where it differs; where the desktop's rows
/// change, the handheld is marked as one that knows no desktop; the desktop commits what changes of the picked slot, its marks as they are,
/// and nothing where nothing changes.
///
/// The link and the desktop's folder come back however it ended. The desktop's folder changes only behind all writes of the handheld.
/// Over a link that tells its handheld the session ends with both sides filed, or it stops before the desktop's commit or behind it, and
/// says why.
pub fn file_session<L: Link, D: Folder>(alloc: Global, link: L, desk: Desk<D>) -> Outcome<L, D>
    requires { L.begun link ≡ false }
    ensures link { Leaves L.since L.fault L.downs link result.link }
    ensures folder { LeavesFolder D.contents D.moments D.paths D.faults desk.folder result }
    ensures ran { FilingRan L.talk L.since L.fault L.downs D.contents D.moments D.paths D.faults
        link desk result }
    // Over a link that tells a handheld on which nothing is open.
    ensures ends { WhereAtRest L.talk link (IsDesk (D.contents desk.folder) desk.slots)
        (λ device. FilingEnds L.talk L.since L.fault L.downs D.contents D.moments
        (filing_of device desk.slots) link desk.folder result) }
{
    run(alloc, link, desk)
}
