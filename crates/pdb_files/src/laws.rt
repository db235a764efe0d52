//! What holds of every database and of every text.

ghost use Rattle.std.specs.Prelude.{◌≡◌, ℕ, ◌<◌, All, IfOk, IsOkUnless, List, None};
ghost use Rattle.pdb_values.specs.Databases.{DatabaseValue};
ghost use Rattle.pdb_files.specs.Faults.{file_fault};
ghost use Rattle.pdb_files.specs.Files.{IsFileText};

use crate::fault::FileFault;
use crate::reader::read_database;
use crate::writer::write_database;
use pdb_values::Database;
use std::alloc::Global;

/// A database written and read again: it is the same, unless memory runs out.
pub fn round_trip(alloc: Global, database: &Database) -> Result<Database, FileFault>
    ensures same { IfOk result (λ copy. copy ≡ database.now) }
    ensures memory { IsOkUnless result FileFault.NoMemory }
{
    let bytes = write_database(alloc, database)?;
    read_database(alloc, &bytes)
}

/// No bytes are a text of two databases.
pub fn one_database()
    ensures { (bytes : List ℕ) (one other : DatabaseValue) → IsFileText one bytes
        → IsFileText other bytes → one ≡ other }
{}

/// Bytes break no rule exactly where they are a text of a database.
pub fn rules_are_the_grammar()
    ensures text { (bytes : List ℕ) → All (λ byte. byte < 256) bytes → file_fault bytes ≡ None →
        (database : DatabaseValue) × IsFileText database bytes }
    ensures no_fault { (bytes : List ℕ) (database : DatabaseValue) → IsFileText database bytes →
        file_fault bytes ≡ None }
{}
