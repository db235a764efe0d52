// A session that backs a handheld up, from the meeting to the end.
ghost use Rattle.std.specs.Prelude.{◌≡◌, Err, IsErrOf, Some, false};
ghost use Rattle.hs_folders.specs.Causes.{HasCause};
ghost use Rattle.dlp_commands.specs.Talks.{Talk};
ghost use Rattle.session_parts.specs.Leaving.{Leaves};
ghost use Rattle.session_parts.specs.Rests.{IsAtRest};
ghost use Rattle.session_parts.specs.declared.stop.Stop.TheVariants as stops;
ghost use Rattle.install_backup.specs.BackupEnds.{BackupEnds, BackupRan, BackupWent};

use crate::keeping::backup_all;
use crate::moved::MoveOutcome;
use crate::whole_install::link_of;
use desktop_session::{Halted, UserWish, unclaimed};
use dlp_commands::Link;
use hs_folders::Folder;
use session_parts::{Met, Stop, meet_over};
use std::alloc::Global;

// The databases that were listed are kept, and the session is ended.
fn backup_met<L: Link, D: Folder>(alloc: Global, met: Met<L>, folder: D) -> MoveOutcome<L, D>
    requires { met.linked.abandoned ≡ false }
    ensures went { BackupWent L.talk L.since L.fault L.downs D.contents D.moments met.heads.items met.linked
        folder result }
    ensures cause { HasCause (D.faults folder) (D.faults result.folder)
        (IsErrOf result.end stops.DeskFault) }
    ensures paths { D.paths result.folder ≡ D.paths folder }
{
    let Met { linked, heads } = met;
    let mut linked = linked;
    let mut folder = folder;
    match backup_all(alloc, &mut linked, &mut folder, &heads) {
        Ok(moved) => match linked.finish() {
            Ok(ended) => MoveOutcome {
                link: ended.link,
                folder,
                end: Ok(moved),
            },
            Err(Halted { link, cause }) => MoveOutcome {
                link,
                folder,
                end: Err(Stop::Session(cause)),
            },
        },
        Err(stop) => MoveOutcome {
            link: link_of(linked),
            folder,
            end: Err(stop),
        },
    }
}

/// Runs a session that backs up a handheld behind a link, from the wake to the end: its databases are listed, and each is read whole and
/// kept in its file of the folder, one after another.
///
/// The link and the folder come back however it ended. A session that stops leaves the files of the databases that it read whole and
/// closed, and no part of another; and so does a cut at any moment of it.
pub fn backup_session<L: Link, D: Folder>(alloc: Global, link: L, folder: D) -> MoveOutcome<L, D>
    requires { L.begun link ≡ false }
    ensures link { Leaves L.since L.fault L.downs link result.link }
    ensures ran { BackupRan L.talk L.since L.fault L.downs D.contents D.moments link folder result }
    // Over a link that tells a handheld on which nothing is open.
    ensures ends { (told : Talk) → L.talk link ≡ Some told → IsAtRest told.device
        → BackupEnds L.talk L.since L.fault L.downs D.contents D.moments told.device link result.link folder
        result.folder result.end }
    ensures cause { HasCause (D.faults folder) (D.faults result.folder)
        (IsErrOf result.end stops.DeskFault) }
    ensures paths { D.paths result.folder ≡ D.paths folder }
{
    match meet_over(alloc, link, &[unclaimed()], &UserWish::none()) {
        Ok(met) => backup_met(alloc, met, folder),
        Err(Halted { link, cause }) => MoveOutcome {
            link,
            folder,
            end: Err(Stop::Session(cause)),
        },
    }
}
