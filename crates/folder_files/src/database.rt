// The files of a database.
ghost use Rattle.std.specs.Prelude.{◌≡◌, IfOk, string_bytes};
ghost use Rattle.folder_files.specs.FileNames as names;

use pdb_values::{DbHead, DbName};
use std::alloc::{AllocError, Global};

/// The file of a database, by what it holds: records in `STEM.pdb`, resources in `STEM.prc`.
pub fn database_file(alloc: Global, head: &DbHead) -> Result<String, AllocError>
    ensures { IfOk result (λ file. string_bytes file ≡ names.database_file head.now) }
{
    let mut file = head.name.file_stem(alloc)?;
    file.push_str(if head.holds_resources() {
        ".prc"
    } else {
        ".pdb"
    })?;
    Ok(file)
}

/// The file of a desktop's rows, and of a handheld's records, of the database of this name.
pub fn rows_file(alloc: Global, name: &DbName) -> Result<String, AllocError>
    ensures { IfOk result (λ file. string_bytes file ≡ names.rows_file name.now) }
{
    let mut file = name.file_stem(alloc)?;
    file.push_str(".pdb")?;
    Ok(file)
}

/// The file of a desktop's base rows of the database of this name.
pub fn base_file(alloc: Global, name: &DbName) -> Result<String, AllocError>
    ensures { IfOk result (λ file. string_bytes file ≡ names.base_file name.now) }
{
    let mut file = name.file_stem(alloc)?;
    file.push_str(".base")?;
    Ok(file)
}

/// The file of a desktop's archive of the database of this name.
pub fn archive_file(alloc: Global, name: &DbName) -> Result<String, AllocError>
    ensures { IfOk result (λ file. string_bytes file ≡ names.archive_file name.now) }
{
    let mut file = name.file_stem(alloc)?;
    file.push_str(".arc")?;
    Ok(file)
}

/// What stands in front of the name of a file of this slot of a desktop.
pub fn slot_prefix(alloc: Global, slot: usize) -> Result<String, AllocError>
    ensures { IfOk result (λ prefix. string_bytes prefix ≡ names.slot_prefix slot) }
{
    if slot == 0 {
        Ok(String::new(alloc))
    } else {
        format!(in alloc; "s{slot}.")
    }
}
