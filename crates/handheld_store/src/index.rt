// The ids of databases' records, kept so that a record is found by its id without a walk.
ghost use Rattle.std.specs.Prelude.{◌≡◌, ◌<◌, ◌≤◌, ◌++◌, ◌∷◌, [], IfSome, List, Some, filter, find, length, not, option_and_then, position, true};
ghost use Rattle.std.specs.Option.{option_copied};
ghost use Rattle.pdb_values.specs.Databases.{DatabaseValue};
ghost use Rattle.pdb_values.specs.NamedDatabases as named;
ghost use Rattle.palm_device.specs.Records as records;
ghost use Rattle.palm_device.specs.Soundness.{ids_of};
ghost use Rattle.handheld_store.specs.Indexes as index_specs;
ghost use Rattle.handheld_store.specs.Indexes.{AreIndexes, HasIdMore, HasOneMore};

use indexmap::IndexSet;
use palm_device::place_of_id;
use pdb_values::{Database, DbName, Record, database_of};
use std::alloc::{AllocError, Global};

/// The ids of a database's records in their order. They stand at the places of the records.
#[derive(Drop)]
pub struct Index {
    pub name: DbName,
    pub ids: IndexSet<u32>,
}

/// Where the record of an id of a database stands, by the index of the database. It is made where
/// there is none and memory serves.
pub fn place_in(
    alloc: Global,
    indexes: &mut Vec<Index>,
    databases: &[Database],
    name: &DbName,
    id: u32,
) -> Option<usize>
    requires { AreIndexes databases.now indexes.old.items }
    ensures place { result ≡ option_and_then
        (λ database. records.place_of_id id database.records)
        (named.database_of name.now databases.now) }
    ensures within { IfSome result (λ place. place < 65535) }
    ensures few { IfSome (named.database_of name.now databases.now)
        (λ database. length database.records ≤ 65535) }
    ensures indexes { AreIndexes databases.now indexes.new.items }
{
    let Some(database) = database_of(databases, name.as_bytes()) else {
        return None;
    };
    let items = database.records();
    if index_of(indexes, name.as_bytes()).is_none() {
        add_index(alloc, indexes, database);
    }
    match index_of(indexes, name.as_bytes()) {
        Some(index) => index.ids.get_index_of(&id),
        None => place_of_id(items, id),
    }
}

// Whether it is the index of a database of this name.
fn is_of(index: &Index, name: &[u8]) -> bool
    ensures { result ≡ index_specs.is_of name.now index.now }
{
    name == index.name.as_bytes()
}

// The index of a database of this name.
fn index_of<'i>(indexes: &'i [Index], name: &[u8]) -> Option<&'i Index>
    ensures { option_copied result
        ≡ find (index_specs.is_of name.now) indexes.entry.now }
{
    indexes.iter().find(|index| is_of(index, name))
}

// Adds the index of a database, where memory serves.
fn add_index(alloc: Global, indexes: &mut Vec<Index>, database: &Database)
    ensures { (databases : List DatabaseValue)
        → named.database_of database.now.head.name databases ≡ Some database.now
        → AreIndexes databases indexes.old.items → AreIndexes databases indexes.new.items }
{
    if let Some(ids) = ids_in(alloc, database.records()) {
        let name = database.head().name.copy();
        let _added = indexes.push(Index { name, ids });
    }
}

// The ids of records in their order, where they differ and memory serves.
#[tactic(auto, using(crate::proofs::IndexLaws::ids_more))]
fn ids_in(alloc: Global, items: &[Record]) -> Option<IndexSet<u32>>
    ensures { IfSome result (λ ids. ids.keys ≡ ids_of items.now) }
{
    let Ok(mut ids) = IndexSet::with_capacity(alloc, items.len()) else {
        return None;
    };
    for place in 0..items.len() {
        if !insert_id(&mut ids, items[place].id.number()) {
            return None;
        }
    }
    Some(ids)
}

// Puts an id behind the others. The answer is whether it is new and memory serves.
fn insert_id(ids: &mut IndexSet<u32>, id: u32) -> bool
    ensures { result ≡ true → ids.new.keys ≡ ids.old.keys ++ id ∷ [] }
{
    matches!(ids.insert(id), Ok(true))
}

/// Puts the id of a new record behind those of the database of this name, where it has an index and
/// memory serves. Else the index is forgotten.
pub fn add_id(indexes: &mut Vec<Index>, name: &[u8], id: u32)
    ensures { (was databases : List DatabaseValue) → AreIndexes was indexes.old.items
        → HasOneMore name.now id was databases → AreIndexes databases indexes.new.items }
{
    let taken = take_index(indexes, name);
    forget(indexes, name);
    match taken {
        Some(index) => put_more(indexes, index, id),
        None => {}
    }
}

// Takes out the index of a database of this name.
fn take_index(indexes: &mut Vec<Index>, name: &[u8]) -> Option<Index>
    ensures taken { result ≡ find (index_specs.is_of name.now) indexes.old.items }
    ensures others { (databases : List DatabaseValue) → AreIndexes databases indexes.old.items
        → AreIndexes databases indexes.new.items }
{
    match place_of_index(indexes, name) {
        Some(place) => Some(indexes.remove(place)),
        None => None,
    }
}

// The place of the index of a database of this name.
fn place_of_index(indexes: &[Index], name: &[u8]) -> Option<usize>
    ensures place { result ≡ position (index_specs.is_of name.now) indexes.now }
    ensures within { IfSome result (λ place. place < length indexes.now) }
{
    indexes.iter().position(|index| is_of(index, name))
}

// Puts an index that has one id more behind the others, where memory serves.
fn put_more(indexes: &mut Vec<Index>, index: Index, id: u32)
    ensures { (databases : List DatabaseValue) → AreIndexes databases indexes.old.items
        → HasIdMore databases index id → AreIndexes databases indexes.new.items }
{
    let Index { name, mut ids } = index;
    if insert_id(&mut ids, id) {
        let _added = indexes.push(Index { name, ids });
    }
}

/// Forgets the index of a database of this name.
pub fn forget(indexes: &mut Vec<Index>, name: &[u8])
    ensures { indexes.new.items
        ≡ filter (λ index. not (index_specs.is_of name.now index)) indexes.old.items }
{
    indexes.retain(|index| !is_of(index, name));
}

/// Whether the database of this one's name has the same ids in the same order.
pub fn has_ids_of(databases: &[Database], database: &Database) -> bool
    ensures { result ≡ true
        → IfSome (named.database_of database.now.head.name databases.now)
        (λ held. ids_of held.records ≡ ids_of database.now.records) }
{
    match database_of(databases, database.head().name.as_bytes()) {
        Some(held) => are_same_ids(held.records(), database.records()),
        None => false,
    }
}

// Whether records have the same ids in the same order.
fn are_same_ids(ones: &[Record], others: &[Record]) -> bool
    ensures { result ≡ true → ids_of ones.now ≡ ids_of others.now }
{
    if ones.len() != others.len() {
        return false;
    }
    for place in 0..ones.len() {
        if !is_same_id(&ones[place], &others[place]) {
            return false;
        }
    }
    true
}

// Whether two records have the same id.
fn is_same_id(one: &Record, other: &Record) -> bool
    ensures { result ≡ true → one.now.id ≡ other.now.id }
{
    one.id == other.id
}
