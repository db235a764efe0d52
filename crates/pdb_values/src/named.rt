// Databases in byte order of their names.
ghost use Rattle.std.specs.Prelude.{◌≡◌, ◌<◌, ◌≤◌, IfSome, OnErr, OnOk, length, position};
ghost use Rattle.std.specs.Option.{option_copied};
ghost use Rattle.pdb_values.specs.NamedDatabases as named;

use crate::database::Database;
use std::alloc::AllocError;
use std::cmp::Ordering;

// Whether a database has this name.
fn is_named(database: &Database, name: &[u8]) -> bool
    ensures { result ≡ named.is_named name.now database.now }
{
    database.head().name.as_bytes() == name
}

/// Where the database of a name stands.
pub fn place_of(databases: &[Database], name: &[u8]) -> Option<usize>
    ensures place { result ≡ named.place_of name.now databases.now }
    ensures within { IfSome result (λ place. place < length databases.now) }
{
    databases
        .iter()
        .position(|database| is_named(database, name))
}

/// The database of a name.
pub fn database_of<'d>(databases: &'d [Database], name: &[u8]) -> Option<&'d Database>
    ensures { option_copied result ≡ named.database_of name.now databases.entry.now }
{
    databases.iter().find(|database| is_named(database, name))
}

// Whether a name stands before that of a database in byte order.
fn comes_before(name: &[u8], database: &Database) -> bool
    ensures { result ≡ named.comes_before name.now database.now.head.name }
{
    match name.cmp(database.head().name.as_bytes()) {
        Ordering::Less => true,
        _ => false,
    }
}

// Where the first database of a greater name stands.
fn first_greater(databases: &[Database], name: &[u8]) -> Option<usize>
    ensures place { result ≡ position (λ database. named.comes_before name.now database.head.name)
        databases.now }
    ensures within { IfSome result (λ place. place < length databases.now) }
{
    databases
        .iter()
        .position(|database| comes_before(name, database))
}

// Where a new database of this name goes: in front of the first greater name, or behind all.
#[tactic(auto, using(crate::proofs::PlaceLaws::place_found, crate::proofs::PlaceLaws::place_past))]
fn place_for(databases: &[Database], name: &[u8]) -> usize
    ensures place { result ≡ named.place_for name.now databases.now }
    ensures within { result ≤ length databases.now }
{
    match first_greater(databases, name) {
        Some(place) => place,
        None => databases.len(),
    }
}

/// Puts a new database at its place in the order of names.
pub fn insert_database(databases: &mut Vec<Database>, database: Database) -> Result<(), AllocError>
    ensures inserted { OnOk result (databases.new.items
        ≡ named.with_new database databases.old.items) }
    ensures stays { OnErr result (databases.new.items ≡ databases.old.items) }
{
    let place = place_for(databases, database.head().name.as_bytes());
    match databases.insert(place, database) {
        Ok(()) => Ok(()),
        Err(_) => Err(AllocError),
    }
}

/// Puts a database in place of the one of its name, or else at its own place in the order of names.
pub fn put_database(databases: &mut Vec<Database>, database: Database) -> Result<(), AllocError>
    ensures put { OnOk result (databases.new.items ≡ named.with_put database databases.old.items) }
    ensures stays { OnErr result (databases.new.items ≡ databases.old.items) }
{
    match place_of(databases, database.head().name.as_bytes()) {
        Some(place) => {
            databases[place] = database;
            Ok(())
        }
        None => insert_database(databases, database),
    }
}

/// Takes out the database of a name, and all others stay.
pub fn remove_database(databases: &mut Vec<Database>, name: &[u8])
    ensures { databases.new.items ≡ named.without_named name.now databases.old.items }
{
    if let Some(place) = place_of(databases, name) {
        let _taken = databases.remove(place);
    }
}
