// What a handheld loses once the desktop has committed.
ghost use Rattle.std.specs.Prelude.{◌≡◌, [], false};
ghost use Rattle.desktop_session.specs.Answers.{mapped};
ghost use Rattle.desktop_session.specs.Asking.{opens};
ghost use Rattle.desktop_session.specs.Following.{Follows};
ghost use Rattle.desktop_session.specs.Requests.{opening};
ghost use Rattle.mirrors.specs.News.{purge_writes};
ghost use Rattle.mirrors.specs.WriteInquiries.{purges};
ghost use Rattle.session_parts.specs.Inquiries.{each, under};
ghost use Rattle.sync_session.specs.Inquiries.{purges_one};
ghost use Rattle.sync_session.specs.Phases.{purges_under};
ghost use Rattle.session_parts.specs.Spans.{Spans, within};
ghost use Rattle.session_parts.specs.Stretches.{SpansEach, done_each, says_nothing};

use conduit_rules::Plan;
use desktop_session::{Linked, SessionFault};
use dlp_commands::Link;
use mirrors::purge_side;
use pdb_values::DbName;
use session_plan::Planned;

/// Takes away from the handheld's database of a name what its plan does not keep, one by one, then all records with the delete bit,
/// and makes all records clean. The database is opened for it and closed. After a refusal it may be left open, and only `halt` may
/// follow.
pub fn purge_one<L: Link>(
    linked: &mut Linked<L>,
    name: &DbName,
    plan: &Plan,
) -> Result<(), SessionFault>
    requires { linked.old.abandoned ≡ false }
    ensures spans { Spans L.talk L.since L.fault L.downs
        (within (opening name.now) (λ handle given. purge_writes handle plan.now.purge.items))
        (λ handle given done. Unit {0}) linked.old linked.new result }
    ensures follows { Follows L.Link
        (under (opens 0xD0 name.now) (λ handle. purges handle plan.now.purge.items))
        linked.old.link linked.new.link result }
{
    let mut opened = linked.open(name)?;
    match purge_side(&mut opened, plan) {
        Ok(()) => {}
        Err(fault) => {
            opened.abandon();
            return Err(fault);
        }
    }
    opened.close()
}

// Takes away from a database what its plan does not keep, unless it is skipped.
fn purge_planned<L: Link>(linked: &mut Linked<L>, one: &Planned) -> Result<(), SessionFault>
    requires { linked.old.abandoned ≡ false }
    ensures spans { Spans L.talk L.since L.fault L.downs
        (purges_under (L.talk linked.old.link) one.now) (λ handle given done. Unit {0})
        linked.old linked.new result }
    ensures follows { Follows L.Link (purges_one one.now) linked.old.link linked.new.link result }
{
    match &one.job.skip {
        Some(_) => Ok(()),
        None => purge_one(linked, &one.job.name, &one.plan),
    }
}

/// Takes away from each of these databases of the handheld what its plan does not keep, one database after another, as `purge_one`
/// does. One that is skipped is not opened.
pub fn purge_all<L: Link>(linked: &mut Linked<L>, planned: &[Planned]) -> Result<(), SessionFault>
    requires { linked.old.abandoned ≡ false }
    ensures purges { SpansEach L.talk L.since L.fault L.downs purges_under says_nothing
        planned.now (done_each planned.now) linked.old linked.new result }
    ensures follows { Follows L.Link (each purges_one [] planned.now) linked.old.link linked.new.link
        (mapped (done_each planned.now) result) }
{
    for one in planned {
        purge_planned(linked, one)?;
    }
    Ok(())
}
