//! The files of one database on both sides.

ghost use Rattle.std.specs.Prelude.{◌≡◌, IfErr, IfOk, true};
ghost use Rattle.std.specs.Option.{option_copied};
ghost use Rattle.hotsync_c.specs.Merges.{AreSides, IsSide, RefusesSide, RefusesSides, bears, first_name, has_records, is_kept_under, is_one, name_in};

use crate::merge_refusal::MergeRefusal;
use database_merge::{BothSides, MergeFault};
use pdb_files::{FileFault, read_database};
use pdb_values::{Database, DbName};
use std::alloc::Global;

/// What both sides hold of one database, by its files. No bytes stand for no file.
pub fn read_sides(
    alloc: Global,
    handheld: &[u8],
    rows: &[u8],
    base: &[u8],
    archive: &[u8],
) -> Result<BothSides, MergeRefusal>
    ensures sides { IfOk result (AreSides handheld.now rows.now base.now archive.now) }
    ensures one { IfOk result (λ both. is_one both ≡ true) }
    ensures refused { IfErr result
        (RefusesSides handheld.now rows.now base.now archive.now) }
{
    let handheld = read_side(alloc, handheld)?;
    let rows = read_side(alloc, rows)?;
    let base = read_side(alloc, base)?;
    let archive = read_side(alloc, archive)?;
    let both = BothSides {
        handheld,
        rows,
        base,
        archive,
    };
    if is_one(&both) {
        Ok(both)
    } else {
        Err(MergeRefusal::Form)
    }
}

// The database of a file; none of no bytes.
fn read_side(alloc: Global, bytes: &[u8]) -> Result<Option<Database>, MergeRefusal>
    ensures side { IfOk result (IsSide bytes.now) }
    ensures refused { IfErr result (RefusesSide bytes.now) }
{
    if bytes.is_empty() {
        return Ok(None);
    }
    match read_database(alloc, bytes) {
        Ok(database) => Ok(Some(database)),
        Err(FileFault::NoMemory) => Err(MergeRefusal::Fault(MergeFault::NoMemory)),
        Err(_) => Err(MergeRefusal::Form),
    }
}

// The name of a database, where there is one.
fn name_in(side: Option<&Database>) -> Option<&DbName>
    ensures { option_copied result ≡ name_in (option_copied side.entry) }
{
    match side {
        Some(database) => Some(&database.head().name),
        None => None,
    }
}

// The name of the first database that is there.
fn first_name(both: &BothSides) -> Option<&DbName>
    ensures { option_copied result ≡ first_name both.entry.now }
{
    let desktop = name_in(both.base.as_ref()).or(name_in(both.archive.as_ref()));
    name_in(both.handheld.as_ref()).or(name_in(both.rows.as_ref()).or(desktop))
}

// Whether a database bears this name, where both are there.
fn bears(name: Option<&DbName>, side: Option<&Database>) -> bool
    ensures { result ≡ bears (option_copied name.entry) (option_copied side.entry) }
{
    match (name, side) {
        (Some(name), Some(database)) => name.as_bytes() == database.head().name.as_bytes(),
        _ => true,
    }
}

// Whether it holds records, where it is there.
fn has_records(side: Option<&Database>) -> bool
    ensures { result ≡ has_records (option_copied side.entry) }
{
    match side {
        Some(database) => !database.head().holds_resources(),
        None => true,
    }
}

// Whether it is a desktop's file under this name.
fn is_kept_under(name: Option<&DbName>, side: Option<&Database>) -> bool
    ensures { result ≡ is_kept_under (option_copied name.entry) (option_copied side.entry) }
{
    bears(name, side) && has_records(side)
}

// Whether all bear one name, and the desktop's hold records.
fn is_one(both: &BothSides) -> bool
    ensures { result ≡ is_one both.now }
{
    let name = first_name(both);
    is_kept_under(name, both.rows.as_ref())
        && is_kept_under(name, both.base.as_ref())
        && is_kept_under(name, both.archive.as_ref())
}
