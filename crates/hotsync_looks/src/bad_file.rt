// A bad file, in the status of a call.
ghost use Rattle.hotsync_looks.specs.BadFiles.{IsBadStatus, StandsFor};

use cmd_status::{FileSide, Status};
use pdb_files::{BadKind, FileFault};
use std::alloc::{AllocError, Global};

/// What a refusal of a file's bytes makes of the call.
pub fn fault_status(alloc: Global, side: FileSide, name: &str, fault: FileFault) -> Status
    ensures { StandsFor side name.now fault result }
{
    match fault.bad_file() {
        Some((kind, place)) => bad_file(alloc, side, name, kind, place),
        None => Status::NoMemory,
    }
}

/// The status of a bad file, where memory serves for its name.
pub fn bad_file(alloc: Global, side: FileSide, name: &str, kind: BadKind, place: u64) -> Status
    ensures { IsBadStatus side name.now kind place result }
{
    match String::from_str(alloc, name) {
        Ok(name) => Status::BadFile {
            side,
            name,
            kind,
            place,
        },
        Err(AllocError) => Status::NoMemory,
    }
}
