// The database of a text of memos.
ghost use Rattle.std.specs.Prelude.{◌≡◌, ◌⊎◌, IfErr, IfOk, Ok as OkValue};
ghost use Rattle.memo_texts.specs.Databases.{import_in};
ghost use Rattle.hotsync_looks.specs.LookTexts.{IsImported, RefusesImport, SaysMisfit};

use cmd_status::{Status, Surplus};
use memo_texts::{ImportFault, import_memos};
use pdb_files::write_database;
use pdb_values::Database;
use std::alloc::Global;

/// The file of the database that the memos of a text make.
pub fn imported_file(alloc: Global, text: &[u8]) -> Result<Vec<u8>, Status>
    ensures file { IfOk result (λ file. IsImported text.now file.items) }
    ensures refused { IfErr result (λ refusal. RefusesImport text.now refusal) }
{
    let database = imported_database(alloc, text)?;
    Ok(write_database(alloc, &database)?)
}

/// The database that the memos of a text make.
pub fn imported_database(alloc: Global, text: &[u8]) -> Result<Database, Status>
    ensures database { IfOk result (λ database. import_in text.now ≡ OkValue database) }
    ensures refused { IfErr result (λ refusal. RefusesImport text.now refusal) }
{
    match import_memos(alloc, text) {
        Ok(database) => Ok(database),
        Err(fault) => Err(import_status(fault)),
    }
}

// What it makes of the call that a text gives no database.
fn import_status(fault: ImportFault) -> Status
    ensures { SaysMisfit fault result ⊎ ((fault ≡ ImportFault.NoMemory) × (result ≡ Status.NoMemory)) }
{
    match fault {
        ImportFault::BadText(line, flaw) => Status::BadText {
            line: line as u64,
            flaw,
        },
        ImportFault::TooManyCategories => Status::Overfull(Surplus::Categories),
        ImportFault::TooManyRecords => Status::Overfull(Surplus::Records),
        ImportFault::NoMemory => Status::NoMemory,
    }
}
