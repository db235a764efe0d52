// The session that brings the categories of both sides together.
ghost use Rattle.std.specs.Prelude.{◌≡◌, true};
ghost use Rattle.category_mirror.specs.Sides.{filing_of};
ghost use Rattle.desk_store.specs.Bounds.{AreBounded};
ghost use Rattle.desk_store.specs.Desks.{IsDesk};
ghost use Rattle.handheld_files.specs.Openings.{AreKept, Stands, opened_device};
ghost use Rattle.palm_device.specs.Bounds.{IsBounded};
ghost use Rattle.call_parts.specs.OfCalls.{OfSides};
ghost use Rattle.call_parts.specs.Causes.{IsUnsaid};
ghost use Rattle.cmd_session.specs.Filings.{IsFilingTalk};

use call_parts::{Answer, Closed, close_session, line_to};
use category_mirror::file_session;
use cmd_status::Status;
use desk_store::Desk;
use handheld_store::Store;
use hs_folders::Folder;
use line_script::Script;
use session_parts::Outcome;
use std::alloc::Global;

/// The session over a line that does with each frame what the script says.
pub fn categories_talk<H: Folder, D: Folder>(
    alloc: Global,
    store: Store<H>,
    desk: Desk<D>,
    script: Script,
) -> Answer<H, D>
    requires sound { store.sound ≡ true }
    requires stands { Stands (H.contents store.folder) store.databases store.user }
    requires kept { AreKept store.databases }
    requires proper { IsBounded (opened_device store.databases store.user) }
    requires desktop { IsDesk (D.contents desk.folder) desk.slots }
    requires bounded { AreBounded desk.slots }
    ensures talk { OfSides (IsFilingTalk script
        (filing_of (opened_device store.databases store.user) desk.slots))
        H.Folder D.Folder store.folder desk.folder result }
    ensures unsaid { IsUnsaid result.status }
{
    let world = match line_to(alloc, store, script) {
        Ok(world) => world,
        Err(device) => {
            return Answer::not_started(alloc, Status::NoMemory, device, desk.into_folder());
        }
    };
    let outcome = file_session(alloc, world, desk);
    let Outcome { link, folder, end } = outcome;
    let closed = close_session(alloc, link, end);
    let Closed {
        status,
        report,
        device,
    } = closed;
    Answer {
        status,
        report,
        device,
        desk: folder,
    }
}
