// What a session does before it writes.
ghost use Rattle.std.specs.Prelude.{◌≡◌, All, OnOk, false};
ghost use Rattle.desk_store.specs.Views.{marks_in, parted_in, shelves_in};
ghost use Rattle.desktop_session.specs.Answers.{mapped};
ghost use Rattle.desktop_session.specs.Following.{Follows};
ghost use Rattle.sync_session.specs.ByReplies as replies;
ghost use Rattle.sync_session.specs.ByReplies.{planned_seen};
ghost use Rattle.sync_session.specs.Courses.{JudgesPlanned, Prepares, ReadsAll};
ghost use Rattle.sync_session.specs.Inquiries.{reads_all};
ghost use Rattle.sync_session.specs.Unseen.{HasNoView, SameButViews};
ghost use Rattle.session_plan.specs.PlannedLosses.{loss_planned};
ghost use Rattle.sync_session.specs.Stopping.{refusal_by};

use crate::reading::{no_view, read_all};
use desk_store::Desk;
use desktop_session::{Linked, SessionFault};
use dlp_commands::Link;
use hs_folders::Folder;
use mirrors::agree;
use pdb_values::{DbHead, DbName, UserInfo};
use session_parts::{DbReport, Stop};
use session_plan::{Planned, Wishes, first_limit, first_loss, jobs_of, plan_all, reports_of};
use std::alloc::Global;

/// The databases of a session once they are read and planned, and what is told of them once it has ended.
#[derive(Drop)]
pub struct Prepared {
    pub planned: Vec<Planned>,
    pub reports: Vec<DbReport>,
}

/// The same databases without what was seen of their records: once it is judged what is done, nothing needs it, and it
/// takes as much memory as the records do.
pub fn without_views(alloc: Global, planned: Vec<Planned>) -> Vec<Planned>
    ensures same { SameButViews planned.items result.items }
    ensures views { All HasNoView result.items }
{
    let mut planned = planned;
    for one in planned.iter_mut() {
        one.view = no_view(alloc);
    }
    planned
}

/// Reads each database of a session, and plans what is done with it.
pub fn read_and_plan<L: Link, D: Folder>(
    alloc: Global,
    linked: &mut Linked<L>,
    desk: &Desk<D>,
    heads: &[DbHead],
    wishes: &Wishes,
) -> Result<Vec<Planned>, SessionFault>
    requires { linked.old.abandoned ≡ false }
    ensures reads { ReadsAll L.talk L.since L.fault L.downs heads.now wishes.now desk.now linked.old
        linked.new result }
    ensures follows { Follows L.Link (reads_all wishes.now desk.now linked.old.user heads.now)
        linked.old.link linked.new.link (mapped (λ planned. planned_seen planned.items) result) }
    ensures open { OnOk result (linked.new.abandoned ≡ false) }
{
    let agree = agree(linked.user(), desk.marks());
    let jobs = jobs_of(alloc, heads, desk, agree, wishes)?;
    let views = read_all(alloc, linked, desk, &jobs)?;
    Ok(plan_all(alloc, desk, agree, jobs, views)?)
}

// Why a session stops before it writes, if it does: for the limit that was found, or else for the live rows that it would cost the desktop.
fn refusal_of<D: Folder>(
    limit: Option<DbName>,
    desk: &Desk<D>,
    handheld: &UserInfo,
    planned: &[Planned],
) -> Option<Stop>
    ensures { result ≡ refusal_by limit
        (loss_planned handheld.now (marks_in desk.now) (parted_in desk.now)
        (shelves_in desk.now) planned.now) }
{
    match limit {
        Some(name) => Some(Stop::Limit(name)),
        None => match first_loss(desk, handheld, planned) {
            Some(name) => Some(Stop::NewHandheld(name)),
            None => None,
        },
    }
}

// Looks at the limits of both sides, then at what the session would cost, and tells what will have been done. `listed` is how many
// databases the handheld listed.
fn judge<D: Folder>(
    alloc: Global,
    desk: &Desk<D>,
    handheld: &UserInfo,
    listed: usize,
    planned: &[Planned],
) -> Result<Vec<DbReport>, Stop>
    ensures { JudgesPlanned desk.now handheld.now listed planned.now result }
{
    let limit = first_limit(alloc, desk, listed, planned)?;
    match refusal_of(limit, desk, handheld, planned) {
        Some(stop) => Err(stop),
        None => Ok(reports_of(alloc, desk, planned)?),
    }
}

/// Reads and plans each database of a session, and looks at the limits of both sides, and at what it would cost the desktop.
pub fn prepare<L: Link, D: Folder>(
    alloc: Global,
    linked: &mut Linked<L>,
    desk: &Desk<D>,
    heads: &[DbHead],
    wishes: &Wishes,
) -> Result<Prepared, Stop>
    requires { linked.old.abandoned ≡ false }
    ensures prepares { Prepares L.talk L.since L.fault L.downs heads.now wishes.now desk.now
        linked.old
        linked.new result }
    ensures follows { replies.Prepares L.Link wishes.now linked.old.user heads.now linked.old.link
        linked.new.link desk.now result }
    ensures open { OnOk result (linked.new.abandoned ≡ false) }
{
    let planned = read_and_plan(alloc, linked, desk, heads, wishes)?;
    let reports = judge(alloc, desk, linked.user(), heads.len(), &planned)?;
    Ok(Prepared { planned, reports })
}
