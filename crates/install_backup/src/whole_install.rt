// A session that installs databases, from the greeting to the end.
ghost use Rattle.std.specs.Prelude.{◌≡◌, Err, Some, false};
ghost use Rattle.dlp_commands.specs.Talks.{Talk};
ghost use Rattle.session_parts.specs.Leaving.{Leaves};
ghost use Rattle.session_parts.specs.Rests.{IsAtRest};
ghost use Rattle.install_backup.specs.InstallEnds.{InstallEnds, InstallWent};
ghost use Rattle.install_backup.specs.Rooms.{AreAllBounded};

use crate::greeting::greet;
use crate::many::install_all;
use crate::mark::Mark;
use crate::moved::MoveOutcome;
use desktop_session::{Halted, Linked, SessionFault};
use dlp_commands::Link;
use pdb_values::Database;
use session_parts::Stop;
use std::alloc::Global;

// The link of a session that goes no further.
pub(crate) fn link_of<L: Link>(linked: Linked<L>) -> L
    ensures { result ≡ linked.link }
{
    let Halted { link, .. } = linked.halt(SessionFault::NoMemory);
    link
}

// A session that stopped.
fn stopped<L>(link: L, stop: Stop) -> MoveOutcome<L, ()>
    ensures { result ≡ record { link = link; folder = tt; end = Err stop } }
{
    MoveOutcome {
        link,
        folder: (),
        end: Err(stop),
    }
}

// The databases are installed, and the session is ended.
fn install_greeted<L: Link>(
    alloc: Global,
    linked: Linked<L>,
    databases: &[Database],
) -> MoveOutcome<L, ()>
    requires { linked.abandoned ≡ false }
    ensures { InstallWent L.talk L.since L.fault L.downs databases.now linked result }
{
    let mut linked = linked;
    match install_all(alloc, &mut linked, databases) {
        Ok(moved) => match linked.finish() {
            Ok(ended) => MoveOutcome {
                link: ended.link,
                folder: (),
                end: Ok(moved),
            },
            Err(Halted { link, cause }) => stopped(link, Stop::Session(cause)),
        },
        Err(stop) => stopped(link_of(linked), stop),
    }
}

/// Runs a session that installs each of these databases on a handheld behind a link, from the wake to the end. A read-only one is passed
/// over. Before the first of them the handheld's marks say what the mark is to say, where they don't say so already.
///
/// The link comes back however it ended. Over a link that tells its handheld it ends with each of them in place of the one of its name,
/// or it stops, and says why: at the first one that the handheld has no room for, or where its link, a reply or its memory stops it.
pub fn install_session<L: Link>(
    alloc: Global,
    link: L,
    mark: Mark,
    databases: &[Database],
) -> MoveOutcome<L, ()>
    requires { L.begun link ≡ false }
    ensures link { Leaves L.since L.fault L.downs link result.link }
    // Over a link that tells a handheld on which nothing is open.
    ensures ends { (told : Talk) → L.talk link ≡ Some told → IsAtRest told.device
        → AreAllBounded databases.now
        → InstallEnds L.talk L.since L.fault L.downs mark databases.now told.device link result.link
        result.end }
{
    match greet(alloc, link, mark) {
        Ok(linked) => install_greeted(alloc, linked, databases),
        Err(Halted { link, cause }) => stopped(link, Stop::Session(cause)),
    }
}
