// A session of both sides, from the greeting to the end.
ghost use Rattle.std.specs.Prelude.{◌≡◌, ◌≤◌, IfErr, false, length};
ghost use Rattle.folder_files.specs.Slots.{AreSlots};
ghost use Rattle.desk_store.specs.Shelves.{AreInOrder, marks_of, number_of};
ghost use Rattle.desk_store.specs.Views.{marks_in, shelves_in};
ghost use Rattle.pdb_values.specs.Bounds.{most_databases};
ghost use Rattle.desktop_session.specs.Seats.{seat_for as seat_of};
ghost use Rattle.sync_session.specs.ByReplies as replies;
ghost use Rattle.sync_session.specs.ByReplies.{AsksSession, Commits, Finishes, Sends, work_of};
ghost use Rattle.sync_session.specs.Courses.{Carries, Closes, GoesOn, Runs, Writes, stopped as left_by};
ghost use Rattle.session_parts.specs.Meets.{IsSeated};
ghost use Rattle.session_plan.specs.Fits.{AreOfSession, CanTake, IsSeat};
ghost use Rattle.session_parts.specs.Leaving.{Leaves};
ghost use Rattle.session_parts.specs.Rests.{WhereAtRest};
ghost use Rattle.sync_session.specs.Leaving.{LeavesFolder};
ghost use Rattle.sync_session.specs.Outcomes.{EndsSo};
ghost use Rattle.sync_session.specs.StopCauses.{IsStopBy};
ghost use Rattle.session_plan.specs.PlannedLimits.{unskipped};
ghost use Rattle.session_plan.specs.Takes.{each_of};
ghost use Rattle.session_plan.specs.Tasks.{meeting_of};

use crate::ending::end_all;
use crate::giving::send_all;
use crate::preparing::{Prepared, prepare, without_views};
use desk_store::Desk;
use desktop_session::{Halted, Linked, SessionFault, seat_for};
use dlp_commands::Link;
use hs_folders::Folder;
use pdb_values::{Marks, RecordId};
use session_parts::{Met, Outcome, Stop, meet_over};
use session_plan::{Wishes, commit_all, done_marks};
use std::alloc::{AllocError, Global};

// The same marks once more.
fn same_marks(marks: &Marks) -> Marks
    ensures { result ≡ marks.now }
{
    Marks {
        pc: marks.pc,
        user: marks.user,
        last: marks.last,
        name: marks.name.copy(),
    }
}

// A session that stopped, and the desktop as it is.
fn stopped<L: Link, D: Folder>(link: L, desk: Desk<D>, stop: Stop) -> Outcome<L, D>
    ensures { result ≡ left_by link desk.folder stop }
{
    Outcome {
        link,
        folder: desk.into_folder(),
        end: Err(stop),
    }
}

// The link of a session that goes no further.
fn link_of<L: Link>(linked: Linked<L>) -> L
    ensures { result ≡ linked.link }
{
    let Halted { link, .. } = linked.halt(SessionFault::NoMemory);
    link
}

// The databases are purged, and the session is ended.
fn close<L: Link, D: Folder>(
    linked: Linked<L>,
    desk: Desk<D>,
    prepared: Prepared,
    done: &Marks,
) -> Outcome<L, D>
    requires { linked.abandoned ≡ false }
    ensures closes { Closes L.talk L.since L.fault L.downs done.now prepared linked desk.folder result }
    ensures follows { Finishes L.Link (work_of linked.user done.now prepared) linked.link desk.folder
        result }
{
    match end_all(linked, &prepared.planned, done) {
        Ok(ended) => Outcome {
            link: ended.link,
            folder: desk.into_folder(),
            end: Ok(prepared.reports),
        },
        Err(Halted { link, cause }) => stopped(link, desk, Stop::Session(cause)),
    }
}

// The desktop commits, and then the session is brought to its end.
fn commit<L: Link, D: Folder>(
    alloc: Global,
    linked: Linked<L>,
    desk: Desk<D>,
    prepared: Prepared,
    ids: &[Vec<RecordId>],
    done: Marks,
) -> Outcome<L, D>
    requires open { linked.abandoned ≡ false }
    requires takes { CanTake done prepared.planned.items (each_of ids.now) desk.picked desk.slots }
    ensures carries { Carries L.talk L.since L.fault L.downs D.contents D.moments D.paths D.faults done
        prepared (each_of ids.now) linked desk result }
    ensures follows { Commits L.Link D.Folder (work_of linked.user done prepared) (each_of ids.now)
        linked.link desk result }
{
    let told = same_marks(&done);
    match commit_all(alloc, desk, &prepared.planned, ids, linked.user(), done) {
        Ok(desk) => close(linked, desk, prepared, &told),
        Err((fault, folder)) => Outcome {
            link: link_of(linked),
            folder,
            end: Err(Stop::from(fault)),
        },
    }
}

// The handheld gets what is planned, and then the desktop.
fn write<L: Link, D: Folder>(
    alloc: Global,
    linked: Linked<L>,
    desk: Desk<D>,
    prepared: Prepared,
    done: Marks,
) -> Outcome<L, D>
    requires open { linked.abandoned ≡ false }
    requires planned { AreOfSession (shelves_in desk) prepared.planned.items }
    requires few { length (unskipped prepared.planned.items) ≤ most_databases }
    requires number { done.pc ≡ number_of desk.slots }
    requires seat { IsSeat desk.slots desk.picked done.user }
    ensures writes { Writes L.talk L.since L.fault L.downs D.contents D.moments D.paths D.faults done
        prepared linked desk result }
    ensures follows { Sends L.Link D.Folder (work_of linked.user done prepared) linked.link desk result }
{
    let mut linked = linked;
    let prepared = Prepared {
        planned: without_views(alloc, prepared.planned),
        reports: prepared.reports,
    };
    match send_all(alloc, &mut linked, &desk, &prepared.planned) {
        Ok(ids) => commit(alloc, linked, desk, prepared, &ids, done),
        Err(cause) => stopped(link_of(linked), desk, Stop::Session(cause)),
    }
}

// The slot of the handheld's user is picked, and the session goes on once both sides met.
fn go_on<L: Link, D: Folder>(
    alloc: Global,
    met: Met<L>,
    desk: Desk<D>,
    marks: &[Marks],
    wishes: &Wishes,
) -> Outcome<L, D>
    requires open { met.linked.abandoned ≡ false }
    requires some { 1 ≤ length marks.now }
    requires room { length marks.now ≤ 16 }
    requires count { length marks.now ≡ length desk.slots }
    requires formed { AreSlots (marks_of desk.slots) }
    requires marks { marks.now ≡ marks_of desk.slots }
    requires seated { IsSeated (seat_of marks.now wishes.now.user met.linked.user) }
    ensures goes_on { GoesOn L.talk L.since L.fault L.downs D.contents D.moments D.paths D.faults marks.now
        wishes.now met desk result }
    ensures follows { replies.GoesOn L.Link D.Folder wishes.now met.linked.user met.heads.items
        met.linked.link desk result }
{
    let Met { linked, heads } = met;
    let mut linked = linked;
    let mut desk = desk;
    desk.pick(seat_for(marks, &wishes.user, linked.user()));
    let done = done_marks(
        wishes.date,
        &wishes.user.name,
        marks,
        linked.user(),
        desk.marks(),
    );
    match prepare(alloc, &mut linked, &desk, &heads, wishes) {
        Ok(prepared) => write(alloc, linked, desk, prepared, done),
        Err(stop) => stopped(link_of(linked), desk, stop),
    }
}

// A session from its beginning.
fn run<L: Link, D: Folder>(alloc: Global, link: L, desk: Desk<D>, wishes: &Wishes) -> Outcome<L, D>
    requires { L.begun link ≡ false }
    ensures runs { Runs L.talk L.since L.fault L.downs D.contents D.moments D.paths D.faults wishes.now
        link desk result }
    ensures follows { AsksSession L.Link D.Folder wishes.now link desk result }
{
    match desk.all_marks(alloc) {
        Ok(marks) => match meet_over(alloc, link, &marks, &wishes.user) {
            Ok(met) => go_on(alloc, met, desk, &marks, wishes),
            Err(Halted { link, cause }) => stopped(link, desk, Stop::Session(cause)),
        },
        Err(AllocError) => stopped(link, desk, Stop::Session(SessionFault::NoMemory)),
    }
}

/// Runs a session of a handheld behind a link with a desktop, from the wake to the end: both sides meet, every database is read and
/// planned, the limits and what the session would cost the desktop are looked at, the handheld gets its news, the desktop commits, and the handheld's databases are purged.
///
/// The link and the desktop's folder come back however it ended. Over a link that tells its handheld the session ends with both sides
/// merged, or it stops before the desktop's commit or behind it, and says why.
pub fn run_session<L: Link, D: Folder>(
    alloc: Global,
    link: L,
    desk: Desk<D>,
    wishes: &Wishes,
) -> Outcome<L, D>
    requires { L.begun link ≡ false }
    ensures link { Leaves L.since L.fault L.downs link result.link }
    ensures folder { LeavesFolder D.contents D.moments D.paths D.faults desk.folder result }
    // Over any link: what was asked by the replies so far, the commit by what they told, and why it ended.
    ensures follows { AsksSession L.Link D.Folder wishes.now link desk result }
    // Over any link it stops by the link's fault, or where there is none.
    ensures cause { IfErr result.end (IsStopBy (L.fault result.link) (length desk.slots)) }
    // Over a link that tells a handheld on which nothing is open it is the session of both sides.
    ensures ends { WhereAtRest L.talk link (AreInOrder desk.slots) (λ device. EndsSo L.talk L.since L.fault
        L.downs D.contents D.moments (meeting_of device desk.slots wishes.now) link desk.folder
        result) }
{
    run(alloc, link, desk, wishes)
}
