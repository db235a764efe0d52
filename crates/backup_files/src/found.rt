// What was found in the files of a folder, file by file.
ghost use Rattle.std.specs.Prelude.{◌≡◌, [], find};
ghost use Rattle.std.specs.Option.{option_copied};
ghost use Rattle.backup_files.specs.FoundFiles.{is_origin};

use pdb_values::{Database, DbName};
use std::alloc::Global;

/// A file, and the name of the database that it holds.
#[derive(Drop)]
pub struct Origin {
    pub file: String,
    pub name: DbName,
}

/// The databases that were found, in byte order of their names, and where each was found.
#[derive(Drop)]
pub struct Found {
    pub databases: Vec<Database>,
    pub origins: Vec<Origin>,
}

// Nothing yet.
pub fn nothing_found(alloc: Global) -> Found
    ensures databases { result.databases.items ≡ [] }
    ensures origins { result.origins.items ≡ [] }
{
    Found {
        databases: Vec::new(alloc),
        origins: Vec::new(alloc),
    }
}

// Where the database of this name was found.
pub fn origin_of<'o>(origins: &'o [Origin], name: &DbName) -> Option<&'o Origin>
    ensures { option_copied result ≡ find (is_origin name.now) origins.entry.now }
{
    origins.iter().find(|origin| is_of(origin, name))
}

// Whether the database of this name was found there.
fn is_of(origin: &Origin, name: &DbName) -> bool
    ensures { result ≡ is_origin name.now origin.now }
{
    origin.name.as_bytes() == name.as_bytes()
}
