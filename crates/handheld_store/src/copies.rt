// A database once more, and whether two are the same.
ghost use Rattle.std.specs.Prelude.{◌≡◌, ◌↔◌, IfOk, IsTrue};
ghost use Rattle.std.specs.Option.{option_copied};

use pdb_files::{read_database, write_database};
use pdb_values::{Database, DbHead, Record, Resource};
use std::alloc::{AllocError, Global};

/// The same database once more, read from its canonical bytes.
#[tactic(auto, using(pdb_files::proofs::FileLaws::one_database))]
pub fn copy_of(alloc: Global, database: &Database) -> Result<Database, AllocError>
    ensures { IfOk result (λ copy. copy ≡ database.now) }
{
    let bytes = write_database(alloc, database)?;
    match read_database(alloc, &bytes) {
        Ok(copy) => Ok(copy),
        Err(_) => Err(AllocError),
    }
}

/// Whether two databases are the same.
#[tactic(auto, using(crate::proofs::ListLaws::same_parts))]
pub fn are_same(one: &Database, other: &Database) -> bool
    ensures { IsTrue result ↔ (one.now ≡ other.now) }
{
    if !same_head(one.head(), other.head()) {
        return false;
    }
    if !same_block(one.app(), other.app()) {
        return false;
    }
    if !same_block(one.sort(), other.sort()) {
        return false;
    }
    if !same_records(one.records(), other.records()) {
        return false;
    }
    same_resources(one.resources(), other.resources())
}

// Whether two heads are the same.
fn same_head(one: &DbHead, other: &DbHead) -> bool
    ensures { IsTrue result ↔ (one.now ≡ other.now) }
{
    one.name.as_bytes() == other.name.as_bytes()
        && one.attributes == other.attributes
        && one.version == other.version
        && one.created == other.created
        && one.modified == other.modified
        && one.backup == other.backup
        && one.modnum == other.modnum
        && one.seed == other.seed
        && one.kind == other.kind
        && one.creator == other.creator
}

// Whether two blocks are the same, or both are not there.
fn same_block(one: Option<&[u8]>, other: Option<&[u8]>) -> bool
    ensures { IsTrue result ↔ (option_copied one.entry ≡ option_copied other.entry) }
{
    one == other
}

// Whether two lists of records are the same.
fn same_records(one: &[Record], other: &[Record]) -> bool
    ensures { IsTrue result ↔ (one.now ≡ other.now) }
{
    if one.len() != other.len() {
        return false;
    }
    for place in 0..one.len() {
        if !same_record(&one[place], &other[place]) {
            return false;
        }
    }
    true
}

/// Whether two records are the same.
pub fn same_record(one: &Record, other: &Record) -> bool
    ensures { IsTrue result ↔ (one.now ≡ other.now) }
{
    one.id == other.id
        && one.deleted == other.deleted
        && one.dirty == other.dirty
        && one.busy == other.busy
        && one.content.same(&other.content)
}

// Whether two lists of resources are the same.
fn same_resources(one: &[Resource], other: &[Resource]) -> bool
    ensures { IsTrue result ↔ (one.now ≡ other.now) }
{
    if one.len() != other.len() {
        return false;
    }
    for place in 0..one.len() {
        if !same_resource(&one[place], &other[place]) {
            return false;
        }
    }
    true
}

// Whether two resources are the same.
fn same_resource(one: &Resource, other: &Resource) -> bool
    ensures { IsTrue result ↔ (one.now ≡ other.now) }
{
    one.kind == other.kind && one.id == other.id && one.bytes.as_slice() == other.bytes.as_slice()
}
