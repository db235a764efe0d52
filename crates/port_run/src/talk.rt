// The session over a cable.
ghost use Rattle.std.specs.Prelude.{◌≡◌};
ghost use Rattle.desk_store.specs.Bounds.{AreBounded};
ghost use Rattle.front_laws.specs.Sound.{AreSoundWishes};
ghost use Rattle.desk_store.specs.Shelves.{AreInOrder};
ghost use Rattle.call_parts.specs.Causes.{IsUnsaid};
ghost use Rattle.port_laws.specs.Palms.{IsFirstTold};
ghost use Rattle.port_run.specs.Links.{link_over, port_of};
ghost use Rattle.port_run.specs.Talks.{HasTalked};
ghost use Rattle.port_run.specs.Told.{desk_told, port_told};
ghost use Rattle.port_run.specs.Wishes.{AsksFor};
ghost use Rattle.run_words.specs.Views.{cable_view};

use crate::closing::{Closed, close_session};
use crate::synced::{CableReport, Synced};
use crate::wishes::wishes_of;
use cmd_status::Status;
use desk_store::Desk;
use hs_folders::Folder;
use port_line::Port;
use port_link::PortLink;
use run_words::CableWords;
use session_parts::Outcome;
use session_plan::Wishes;
use std::alloc::{AllocError, Global};
use sync_session::run_session;

/// The session over this port, which is open.
pub fn talk<P: Port, D: Folder>(
    alloc: Global,
    words: &CableWords<'_>,
    port: P,
    desk: Desk<D>,
) -> Synced<P, D>
    requires first { IsFirstTold (P.palm port) }
    requires ordered { AreInOrder desk.slots }
    requires bounded { AreBounded desk.slots }
    ensures talked { HasTalked (cable_view words.now) desk.slots (port_told P.Port port)
        (port_told P.Port result.port) (desk_told D.Folder desk.folder)
        (desk_told D.Folder result.desk) result.status result.report }
    ensures unsaid { IsUnsaid result.status }
{
    let Ok(wishes) = wishes_of(alloc, words) else {
        return Synced::not_started(alloc, Status::NoMemory, port, desk.into_folder());
    };
    match PortLink::new(alloc, port) {
        Ok(link) => speak(alloc, words, &wishes, link, desk),
        Err((AllocError, port)) => {
            Synced::not_started(alloc, Status::NoMemory, port, desk.into_folder())
        }
    }
}

// The session over a link over which nothing was said.
fn speak<P: Port, D: Folder>(
    alloc: Global,
    words: &CableWords<'_>,
    wishes: &Wishes,
    link: PortLink<P>,
    desk: Desk<D>,
) -> Synced<P, D>
    requires fresh { link ≡ link_over (port_of link) }
    requires first { IsFirstTold link.scene.palm }
    requires asked { AsksFor (cable_view words.now) wishes.now }
    requires ordered { AreInOrder desk.slots }
    requires bounded { AreBounded desk.slots }
    requires sound { AreSoundWishes wishes.now }
    ensures talked { HasTalked (cable_view words.now) desk.slots (port_of link)
        (port_told P.Port result.port) (desk_told D.Folder desk.folder)
        (desk_told D.Folder result.desk) result.status result.report }
    ensures unsaid { IsUnsaid result.status }
{
    let outcome = run_session(alloc, link, desk, wishes);
    let Outcome { link, folder, end } = outcome;
    let (port, log, cause) = link.into_parts();
    let closed = close_session(alloc, end, cause);
    let Closed {
        status,
        end,
        databases,
    } = closed;
    Synced {
        status,
        report: CableReport {
            end,
            databases,
            cause,
            log,
        },
        port,
        desk: folder,
    }
}
