// How a session begins that looks at no user.
ghost use Rattle.std.specs.Prelude.{◌≡◌, IfErr, IfOk, Some, false, map};
ghost use Rattle.dlp_commands.specs.Talks.{Talk};
ghost use Rattle.desktop_session.specs.Acts.{text};
ghost use Rattle.desktop_session.specs.Ends.{link_begun};
ghost use Rattle.desktop_session.specs.Stops.{Does, Stops};
ghost use Rattle.session_parts.specs.Causes.{IsLater};
ghost use Rattle.session_parts.specs.Leaving.{Leaves};
ghost use Rattle.session_parts.specs.Meets.{greeting};
ghost use Rattle.session_parts.specs.Rests.{IsAtRest};
ghost use Rattle.install_backup.specs.Marks.{marked_greeting};
ghost use Rattle.install_backup.specs.Rooms.{IsNoLimit};

use crate::mark::{Mark, say_mark};
use desktop_session::{Halted, Idle, Linked, UserWish, unclaimed};
use dlp_commands::Link;
use std::alloc::Global;

// Waits for the handheld's wake, reads its user, whoever that is, and says that the conduits begin.
fn hello<L: Link>(alloc: Global, link: L) -> Result<Linked<L>, Halted<L>>
    requires { L.begun link ≡ false }
    ensures stops { Stops L.talk L.since L.fault L.downs (map text greeting) link
        (link_begun result) }
    ensures does { IfOk result (λ linked. Does L.talk greeting link linked.link) }
    ensures user { IfOk result (λ linked. (told : Talk) → L.talk link ≡ Some told
        → IsAtRest told.device → linked.user ≡ told.device.user) }
    ensures open { IfOk result (λ linked. linked.abandoned ≡ false) }
    ensures cause { IfErr result (λ halted. IsLater (L.talk halted.link) (L.fault halted.link)
        halted.cause) }
    ensures others { IfErr result (λ halted. IsNoLimit halted.cause) }
{
    match Idle::new(alloc, link) {
        Ok(idle) => idle.hello(&[unclaimed()], &UserWish::none()),
        Err(halted) => Err(halted),
    }
}

// The same, and then the mark is said, where it is to be.
pub(crate) fn greet<L: Link>(alloc: Global, link: L, mark: Mark) -> Result<Linked<L>, Halted<L>>
    requires { L.begun link ≡ false }
    ensures leaves { Leaves L.since L.fault L.downs link (link_begun result) }
    // Over a link that tells a handheld on which nothing is open.
    ensures stops { (told : Talk) → L.talk link ≡ Some told → IsAtRest told.device
        → Stops L.talk L.since L.fault L.downs (map text (marked_greeting mark told.device.user)) link
        (link_begun result) }
    ensures does { IfOk result (λ linked. (told : Talk) → L.talk link ≡ Some told
        → IsAtRest told.device
        → Does L.talk (marked_greeting mark told.device.user) link linked.link) }
    ensures open { IfOk result (λ linked. linked.abandoned ≡ false) }
    ensures cause { IfErr result (λ halted. IsLater (L.talk halted.link) (L.fault halted.link)
        halted.cause) }
    ensures others { IfErr result (λ halted. IsNoLimit halted.cause) }
{
    let mut linked = match hello(alloc, link) {
        Ok(linked) => linked,
        Err(halted) => return Err(halted),
    };
    match say_mark(&mut linked, mark) {
        Ok(()) => Ok(linked),
        Err(cause) => Err(linked.halt(cause)),
    }
}
