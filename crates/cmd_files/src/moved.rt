// What is told of databases that a session moved.
ghost use Rattle.std.specs.Prelude.{◌≡◌, IfOk, map};
ghost use Rattle.cmd_files.specs.Moves.{TellsMoves, moved_did, moved_report};

use desktop_session::SessionFault;
use install_backup::Moved;
use session_parts::{DbReport, Did, Skip, Stop};
use std::alloc::{AllocError, Global};

/// Where a session moves databases.
#[derive(Clone, Copy, PartialEq, Eq)]
pub enum Way {
    /// It installs them.
    ToHandheld,
    /// It backs them up.
    ToFiles,
}

/// What is told of each database by a session that moved some.
pub fn moves_told(
    alloc: Global,
    way: Way,
    end: Result<Vec<Moved>, Stop>,
) -> Result<Vec<DbReport>, Stop>
    ensures { TellsMoves way end result }
{
    match end {
        Ok(moved) => match moved_reports(alloc, way, &moved) {
            Ok(reports) => Ok(reports),
            Err(AllocError) => Err(Stop::Session(SessionFault::NoMemory)),
        },
        Err(stop) => Err(stop),
    }
}

// A report of each database, in their order.
fn moved_reports(alloc: Global, way: Way, moved: &[Moved]) -> Result<Vec<DbReport>, AllocError>
    ensures { IfOk result (λ reports. reports.items ≡ map (moved_report way) moved.now) }
{
    let mut reports = Vec::new(alloc);
    for one in moved {
        let did = did_of(way, one.entries);
        let name = one.name.copy();
        reports.push(DbReport { name, did })?;
    }
    Ok(reports)
}

// What was done with a database of which so many entries were moved, if it was.
fn did_of(way: Way, entries: Option<u32>) -> Did
    ensures { result ≡ moved_did way entries }
{
    match entries {
        Some(entries) => match way {
            Way::ToHandheld => Did::Installed(entries),
            Way::ToFiles => Did::BackedUp(entries),
        },
        None => Did::Skipped(Skip::ReadOnly),
    }
}
