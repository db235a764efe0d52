// The marks that begin and end what a session writes.
ghost use Rattle.std.specs.Prelude.{◌≡◌, ◌∷◌, [], IfErr, IfOk, false};
ghost use Rattle.dlp_replies.specs.ReplyReading.{reply_at};
ghost use Rattle.desktop_session.specs.Acts.{text};
ghost use Rattle.desktop_session.specs.Answers.{answer_by, no_more, said_in};
ghost use Rattle.desktop_session.specs.Asking.{marks};
ghost use Rattle.desktop_session.specs.Ends.{end_of, link_ended};
ghost use Rattle.desktop_session.specs.Following.{Follows};
ghost use Rattle.desktop_session.specs.Requests.{ending, marking};
ghost use Rattle.desktop_session.specs.Stops.{AsksOne, Does, Stops};
ghost use Rattle.session_parts.specs.Causes.{IsLater};
ghost use Rattle.session_plan.specs.Users as users;
ghost use Rattle.sync_session.specs.Inquiries.{ends_with};

use desktop_session::{Ended, Halted, Linked, SessionFault};
use dlp_commands::Link;
use pdb_values::Marks;
use session_plan::{begun_user, done_user};

/// Marks the handheld as one whose session is under way: its last desktop is none.
pub fn begin<L: Link>(linked: &mut Linked<L>) -> Result<(), SessionFault>
    requires { linked.old.abandoned ≡ false }
    ensures asked { AsksOne L.talk L.since L.fault L.downs
        (marking (users.begun_user linked.old.user) 0x40) linked.old linked.new }
    ensures answer { result ≡ answer_by (L.fault linked.new.link)
        (said_in 0x11 no_more (reply_at 0x11 linked.new.reply)) }
    ensures follows { Follows L.Link (marks (users.begun_user linked.old.user) 0x40) linked.old.link
        linked.new.link result }
{
    let user = begun_user(linked.user());
    linked.mark(&user, 0x40)
}

/// Marks the handheld as one whose session is done, with what the desktop knows then: the user that both
/// sides agree on, this desktop and the date; and ends the session.
pub fn finish<L: Link>(linked: Linked<L>, done: &Marks) -> Result<Ended<L>, Halted<L>>
    requires { linked.abandoned ≡ false }
    ensures stops { Stops L.talk L.since L.fault L.downs
        (text (marking (users.done_user linked.user done.now) 0xF0) ∷ text ending ∷ [])
        linked.link (link_ended result) }
    ensures does { IfOk result (λ ended. Does L.talk
        (marking (users.done_user linked.user done.now) 0xF0 ∷ ending ∷ [])
        linked.link ended.link) }
    ensures cause { IfErr result (λ halted. IsLater (L.talk halted.link) (L.fault halted.link)
        halted.cause) }
    ensures follows { Follows L.Link (ends_with linked.user done.now) linked.link (link_ended result)
        (end_of result) }
{
    let mut linked = linked;
    let user = done_user(linked.user(), done);
    match linked.mark(&user, 0xF0) {
        Ok(()) => linked.finish(),
        Err(cause) => Err(linked.halt(cause)),
    }
}
