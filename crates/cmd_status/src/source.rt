// The bytes of a source.
ghost use Rattle.std.specs.Prelude.{◌≡◌, ◌≢◌, ◌<◌, ◌≤◌, IfErr, IfOk, IfSome, IsErrOf, OnOk, length};
ghost use Rattle.hs_folders.specs.Causes.{Rose};
ghost use Rattle.cmd_status.specs.Sources.{source_limit};
ghost use Rattle.cmd_status.specs.Sources.{IsSourceRefusal};
ghost use Rattle.cmd_status.specs.Opening.{Opens, OpensAtMost};

use crate::status::Status;
use hs_folders::{Source, SourceFault};
use std::alloc::Global;

// The most bytes that a source may have.
const GREATEST: usize = 67_108_864;

/// Opens the source at this path, and reads all its bytes.
pub fn read_source<S: Source>(alloc: Global, source: &mut S, path: &str) -> Result<Vec<u8>, Status>
    ensures bytes { IfOk result (λ bytes. IfSome (S.left source.old) (λ left. bytes.items ≡ left)) }
    ensures short { IfOk result (λ bytes. length bytes.items ≤ source_limit) }
    ensures too_long { IsErrOf result Status.TooLong → IfSome (S.left source.old)
        (λ left. source_limit < length left) }
    ensures failed { IsErrOf result Status.SourceRead → Rose (S.faults source.old)
        (S.faults source.new) }
    ensures refusal { IfErr result IsSourceRefusal }

    ensures opened { OnOk result (Opens path.now (S.paths source.old) (S.paths source.new)) }
    ensures path { OpensAtMost path.now (S.paths source.old) (S.paths source.new) }
    ensures count { S.faults source.old ≤ S.faults source.new }
{
    source.open(path).map_err(source_status)?;
    let bytes = read_all(alloc, source)?;
    Ok(bytes)
}

// All the bytes that are left, where they are not too many.
fn read_all<S: Source>(alloc: Global, source: &mut S) -> Result<Vec<u8>, Status>
    ensures bytes { IfOk result (λ bytes. IfSome (S.left source.old) (λ left. bytes.items ≡ left)) }
    ensures short { IfOk result (λ bytes. length bytes.items ≤ source_limit) }
    ensures too_long { IsErrOf result Status.TooLong → IfSome (S.left source.old)
        (λ left. source_limit < length left) }
    ensures failed { IsErrOf result Status.SourceRead → Rose (S.faults source.old)
        (S.faults source.new) }
    ensures refusal { IfErr result IsSourceRefusal }

    ensures paths { S.paths source.new ≡ S.paths source.old }
    ensures count { S.faults source.old ≤ S.faults source.new }
{
    let mut bytes = Vec::new(alloc);
    let mut room = [0u8; 65_536];
    for _turn in 0..GREATEST + 1 {
        let count = match source.read(&mut room) {
            Ok(count) => count,
            Err(fault) => return Err(source_status(fault)),
        };
        if count == 0 {
            return Ok(bytes);
        }
        bytes.extend_from_slice(&room[..count])?;
        if bytes.len() > GREATEST {
            return Err(Status::TooLong);
        }
    }
    // Each turn took a byte.
    unreachable!()
}

// What a refusal of the source makes of the call.
fn source_status(fault: SourceFault) -> Status
    ensures failed { result ≡ Status.SourceRead → fault ≡ SourceFault.Failed }
    ensures memory { result ≢ Status.SourceRead → result ≡ Status.NoMemory }
{
    match fault {
        SourceFault::Failed => Status::SourceRead,
        SourceFault::NoMemory => Status::NoMemory,
    }
}
