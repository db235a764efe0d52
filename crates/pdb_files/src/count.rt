//! How many entries a file has.

ghost use Rattle.std.specs.Prelude.{◌≡◌, IfOk, MatchResult};
ghost use Rattle.pdb_values.specs.Databases.{DatabaseValue};
ghost use Rattle.pdb_files.specs.Counts.{IsCounted, count_of};
ghost use Rattle.pdb_files.specs.Faults.{Refuses, file_fault};
ghost use Rattle.pdb_files.specs.Files.{IsFileText};

use crate::fault::FileFault;
use crate::front::Front;
use std::alloc::Global;

/// How many entries a database's file has, and of which sort they are.
#[derive(Clone, Copy)]
pub struct FileCount {
    /// They are resources, and not records.
    pub of_resources: bool,
    /// How many there are.
    pub entries: u16,
}

/// How many entries the database of a file has, or the first rule of the format that its bytes break: `read_database` answers
/// the same of them, and makes the database.
pub fn count_entries(alloc: Global, bytes: &[u8]) -> Result<FileCount, FileFault>
    // What is counted has all of the bytes as its text.
    ensures counted { IfOk result (λ count. IsCounted count bytes.now) }
    // What has all of the bytes as its text is counted, unless memory runs out.
    ensures only { (database : DatabaseValue) → IsFileText database bytes.now → MatchResult result
        (λ count. count ≡ count_of database) (λ fault. fault ≡ FileFault.NoMemory) }
    // A refusal is the first rule that the bytes break, and where they break none it is of memory.
    ensures fault { Refuses result (file_fault bytes.now) }
{
    let front = Front::read(alloc, bytes)?;
    Ok(FileCount {
        of_resources: front.header.head.holds_resources(),
        entries: front.header.count,
    })
}
