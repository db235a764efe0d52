// The session that installs databases, of a file or of a folder of backups.
ghost use Rattle.std.specs.Prelude.{◌≡◌, true};
ghost use Rattle.std.specs.List.{AllByRecursion};
ghost use Rattle.handheld_files.specs.Openings.{AreKept, Stands, opened_device};
ghost use Rattle.palm_device.specs.Bounds.{IsBounded, IsBoundedDatabase};
ghost use Rattle.pdb_values.specs.NamedDatabases.{NamesRise};
ghost use Rattle.call_parts.specs.OfCalls.{OfSides};
ghost use Rattle.call_parts.specs.Causes.{IsUnsaid};
ghost use Rattle.cmd_files.specs.Loads.{IsLoadTalk};

use crate::moved::{Way, moves_told};
use call_parts::{Answer, Closed, close_session, line_to};
use cmd_status::Status;
use handheld_store::Store;
use hs_folders::Folder;
use install_backup::{Mark, MoveOutcome, install_session};
use line_script::Script;
use pdb_values::Database;
use std::alloc::Global;

/// The session that installs databases in byte order of their names behind a mark, over a line that does with each frame what the
/// script says. The other folder is handed back.
pub fn load_talk<H: Folder, D: Folder>(
    alloc: Global,
    store: Store<H>,
    other: D,
    script: Script,
    mark: Mark,
    databases: &[Database],
) -> Answer<H, D>
    requires sound { store.sound ≡ true }
    requires stands { Stands (H.contents store.folder) store.databases store.user }
    requires kept { AreKept store.databases }
    requires proper { IsBounded (opened_device store.databases store.user) }
    requires order { NamesRise databases.now }
    requires bounded { AllByRecursion IsBoundedDatabase databases.now }
    ensures talk { OfSides (IsLoadTalk script mark (opened_device store.databases store.user)
        databases.now)
        H.Folder D.Folder store.folder other result }
    ensures unsaid { IsUnsaid result.status }
    ensures other { result.desk ≡ other }
{
    let world = match line_to(alloc, store, script) {
        Ok(world) => world,
        Err(device) => return Answer::not_started(alloc, Status::NoMemory, device, other),
    };
    let outcome = install_session(alloc, world, mark, databases);
    let MoveOutcome {
        link,
        folder: (),
        end,
    } = outcome;
    let end = moves_told(alloc, Way::ToHandheld, end);
    let closed = close_session(alloc, link, end);
    let Closed {
        status,
        report,
        device,
    } = closed;
    Answer {
        status,
        report,
        device,
        desk: other,
    }
}
