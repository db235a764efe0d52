// The session of a backup of the handheld at a port.
ghost use Rattle.std.specs.Prelude.{◌≡◌};
ghost use Rattle.call_parts.specs.Causes.{IsUnsaid};
ghost use Rattle.port_laws.specs.Palms.{IsFirstTold};
ghost use Rattle.port_files.specs.Backups.{backup_command};
ghost use Rattle.port_files.specs.Talks.{HasTalk};
ghost use Rattle.port_run.specs.Links.{link_over, port_of};
ghost use Rattle.port_run.specs.Told.{desk_told, port_told};
ghost use Rattle.run_words.specs.Porteds.{Ported};

use cmd_files::{Way, moves_told};
use cmd_status::Status;
use hs_folders::Folder;
use install_backup::{MoveOutcome, backup_session};
use port_line::Port;
use port_link::PortLink;
use port_run::{CableReport, Closed, Synced, close_session};
use std::alloc::{AllocError, Global};

/// The session that backs up the handheld behind this port, which is open, into the files of a folder. What is known of
/// it holds whatever the words are.
pub fn backup_talk<P: Port, D: Folder>(alloc: Global, port: P, folder: D) -> Synced<P, D>
    requires { IsFirstTold (P.palm port) }
    ensures talked { (words : Ported) → HasTalk (backup_command words) (port_told P.Port port)
        (port_told P.Port result.port) (desk_told D.Folder folder)
        (desk_told D.Folder result.desk) result.status result.report }
    ensures unsaid { IsUnsaid result.status }
{
    match PortLink::new(alloc, port) {
        Ok(link) => backup_over(alloc, link, folder),
        Err((AllocError, port)) => Synced::not_started(alloc, Status::NoMemory, port, folder),
    }
}

// The session over a link over which nothing was said.
fn backup_over<P: Port, D: Folder>(alloc: Global, link: PortLink<P>, folder: D) -> Synced<P, D>
    requires fresh { link ≡ link_over (port_of link) }
    requires first { IsFirstTold link.scene.palm }
    ensures talked { (words : Ported) → HasTalk (backup_command words) (port_of link)
        (port_told P.Port result.port) (desk_told D.Folder folder)
        (desk_told D.Folder result.desk) result.status result.report }
    ensures unsaid { IsUnsaid result.status }
{
    let outcome = backup_session(alloc, link, folder);
    let MoveOutcome { link, folder, end } = outcome;
    let (port, log, cause) = link.into_parts();
    let end = moves_told(alloc, Way::ToFiles, end);
    let closed = close_session(alloc, end, cause);
    let Closed {
        status,
        end,
        databases,
    } = closed;
    Synced {
        status,
        report: CableReport {
            end,
            databases,
            cause,
            log,
        },
        port,
        desk: folder,
    }
}
