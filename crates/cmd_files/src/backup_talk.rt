// The session of a backup.
ghost use Rattle.std.specs.Prelude.{◌≡◌, true};
ghost use Rattle.handheld_files.specs.Openings.{AreKept, Stands, opened_device};
ghost use Rattle.palm_device.specs.Bounds.{IsBounded};
ghost use Rattle.cmd_files.specs.Backups.{IsBackupTalk};
ghost use Rattle.call_parts.specs.OfCalls.{OfSides};
ghost use Rattle.call_parts.specs.Causes.{IsUnsaid};

use crate::moved::{Way, moves_told};
use call_parts::{Answer, Closed, close_session, line_to};
use cmd_status::Status;
use handheld_store::Store;
use hs_folders::Folder;
use install_backup::{MoveOutcome, backup_session};
use line_script::Script;
use std::alloc::Global;

/// The session that backs a handheld up, over a line that does with each frame what the script says.
pub fn backup_talk<H: Folder, D: Folder>(
    alloc: Global,
    store: Store<H>,
    files: D,
    script: Script,
) -> Answer<H, D>
    requires sound { store.sound ≡ true }
    requires stands { Stands (H.contents store.folder) store.databases store.user }
    requires kept { AreKept store.databases }
    requires proper { IsBounded (opened_device store.databases store.user) }
    ensures talk { OfSides (IsBackupTalk script (opened_device store.databases store.user))
        H.Folder D.Folder store.folder files result }
    ensures unsaid { IsUnsaid result.status }
{
    let world = match line_to(alloc, store, script) {
        Ok(world) => world,
        Err(device) => return Answer::not_started(alloc, Status::NoMemory, device, files),
    };
    let outcome = backup_session(alloc, world, files);
    let MoveOutcome { link, folder, end } = outcome;
    let end = moves_told(alloc, Way::ToFiles, end);
    let closed = close_session(alloc, link, end);
    let Closed {
        status,
        report,
        device,
    } = closed;
    Answer {
        status,
        report,
        device,
        desk: folder,
    }
}
