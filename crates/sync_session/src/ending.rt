// The end of a session, once the desktop has committed.
ghost use Rattle.std.specs.Prelude.{◌≡◌, ◌∷◌, [], false};
ghost use Rattle.desktop_session.specs.Ends.{end_of, link_ended};
ghost use Rattle.desktop_session.specs.Following.{Follows};
ghost use Rattle.desktop_session.specs.Requests.{ending, marking};
ghost use Rattle.sync_session.specs.Endings.{Ends};
ghost use Rattle.sync_session.specs.Inquiries.{finishes};
ghost use Rattle.session_plan.specs.Users as users;

use crate::marking::finish;
use crate::purging::purge_all;
use desktop_session::{Ended, Halted, Linked};
use dlp_commands::Link;
use pdb_values::Marks;
use session_plan::Planned;

/// Purges each of these databases of the handheld that is not skipped, then marks the handheld as one whose session is done, with what
/// the desktop knows then, and ends the session.
pub fn end_all<L: Link>(
    linked: Linked<L>,
    planned: &[Planned],
    done: &Marks,
) -> Result<Ended<L>, Halted<L>>
    requires { linked.abandoned ≡ false }
    ensures ends { Ends L.talk L.since L.fault L.downs planned.now
        (marking (users.done_user linked.user done.now) 0xF0 ∷ ending ∷ [])
        linked result }
    ensures follows { Follows L.Link (finishes linked.user done.now planned.now) linked.link
        (link_ended result) (end_of result) }
{
    let mut linked = linked;
    match purge_all(&mut linked, planned) {
        Ok(()) => finish(linked, done),
        Err(cause) => Err(linked.halt(cause)),
    }
}
