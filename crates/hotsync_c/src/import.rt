//! The database of memos that a text makes.

ghost use Rattle.std.specs.Prelude.{◌≡◌, IfErr, IfOk};
ghost use Rattle.hotsync_c.specs.Answers.{Answers};
ghost use Rattle.hotsync_c.specs.Imports.{IsImportOf, RefusesImport, import_refusal};

use crate::refusal::Refusal;
use crate::room::put;
use memo_texts::{ImportFault, import_memos};
use pdb_files::write_database;
use std::alloc::Global;

// The last line that is told of by its number.
const LAST_LINE: usize = 4_294_967_295;

/// Puts the file of the database of memos into the room that a text makes.
///
/// The answer is how long it is; or -100 - N where line N, counted from 1, is the first that is out of its form, -13 for
/// more than 15 labels, -14 for more than 65,535 memos, or -1 where memory was refused.
#[unsafe(no_mangle)]
pub extern "C" fn hs_import(alloc: Global, text: &[u8], room: &mut [u8]) -> i64
    ensures { Answers (IsImportOf text.now) (RefusesImport text.now) room.old room.new result }
{
    match imported(alloc, text) {
        Ok(file) => put(&file, room),
        Err(refusal) => refusal.answer(),
    }
}

// The file of the database of a text.
fn imported(alloc: Global, text: &[u8]) -> Result<Vec<u8>, Refusal>
    ensures file { IfOk result (λ file. IsImportOf text.now file.items) }
    ensures refused { IfErr result (RefusesImport text.now) }
{
    match import_memos(alloc, text) {
        Ok(database) => Ok(write_database(alloc, &database)?),
        Err(fault) => Err(import_refusal(fault)),
    }
}

// The refusal of a text.
fn import_refusal(fault: ImportFault) -> Refusal
    ensures { result ≡ import_refusal fault }
{
    match fault {
        ImportFault::BadText(line, _) => Refusal::BadLine(line.min(LAST_LINE) as u32),
        ImportFault::TooManyCategories => Refusal::Labels,
        ImportFault::TooManyRecords => Refusal::Memos,
        ImportFault::NoMemory => Refusal::Memory,
    }
}
