//! What the file of a database is called.

ghost use Rattle.std.specs.Prelude.{◌≡◌, IfErr, IfOk, string_bytes};
ghost use Rattle.hotsync_c.specs.Answers.{Answers};
ghost use Rattle.hotsync_c.specs.Names.{IsStemOf, RefusesName};

use crate::refusal::Refusal;
use crate::room::put;
use pdb_values::DbName;
use std::alloc::Global;

/// Puts into the room what the file of a database of this name is called, without its ending: letters, digits, `_` and `-`
/// stand for themselves, each other byte is `%` with two hexadecimal digits.
///
/// The answer is how long it is, -2 for bytes that are no name, or -1 where memory was refused.
#[unsafe(no_mangle)]
pub extern "C" fn hs_name(alloc: Global, name: &[u8], room: &mut [u8]) -> i64
    ensures { Answers (IsStemOf name.now) (RefusesName name.now) room.old room.new result }
{
    match stem_in(alloc, name) {
        Ok(stem) => put(stem.as_bytes(), room),
        Err(refusal) => refusal.answer(),
    }
}

// The name of the file, without its ending.
fn stem_in(alloc: Global, name: &[u8]) -> Result<String, Refusal>
    ensures stem { IfOk result (λ stem. IsStemOf name.now (string_bytes stem)) }
    ensures refused { IfErr result (RefusesName name.now) }
{
    match DbName::new(name) {
        Ok(name) => Ok(name.file_stem(alloc)?),
        Err(_) => Err(Refusal::Form),
    }
}
