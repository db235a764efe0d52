// A database in the categories of another file.
ghost use Rattle.std.specs.Prelude.{◌≡◌, ◌≤◌, ◌++◌, ◌∷◌, [], IfErr, IfOk, MatchOption, OnOk, false, length, option_copied, slice_index};
ghost use Rattle.pdb_values.specs.Heads.{holds_resources};
ghost use Rattle.category_tables.specs.Likes as likes;
ghost use Rattle.category_tables.specs.Likes.{AreSmall, IsLike, IsTableOf, RefusesLike};
ghost use Rattle.category_tables.specs.Makings.{merging_value};
ghost use Rattle.category_tables.specs.Tables.{TableValue, table_value};

use crate::like_block::block_like;
use crate::like_fault::LikeFault;
use crate::liking::{all_stand, liking};
use crate::merging::Merging;
use crate::read::read_table;
use crate::table::Table;
use pdb_values::{Category, Database, Record};
use std::alloc::{AllocError, Global};

/// The database with the app block of another file: each of its labels has the number that it has there, the least one where
/// it has several, and one that is new there the least unused number, with an id that none has. All else of the block stays
/// as it is.
pub fn file_like(alloc: Global, database: &Database, block: &[u8]) -> Result<Database, LikeFault>
    requires { holds_resources database.now.head.attributes ≡ false }
    ensures like { IfOk result (λ like. IsLike database.now block.now like) }
    ensures fault { IfErr result (λ fault. RefusesLike database.now block.now fault) }
{
    let Some(made) = table_of(database.app()) else {
        return Err(LikeFault::BadTable);
    };
    let Some(other) = table_of(Some(block)) else {
        return Err(LikeFault::BadTable);
    };
    let merging = liking(&other, &made);
    if !all_stand(&made, &merging) {
        return Err(LikeFault::TooMany);
    }
    Ok(database_like(alloc, database, &other, block, &merging)?)
}

// The table with which a block begins.
fn table_of(block: Option<&[u8]>) -> Option<Table>
    ensures { MatchOption result ((table : TableValue) → IsTableOf (option_copied block.entry) table → ⊥)
        (λ table. IsTableOf (option_copied block.entry) (table_value table)) }
{
    match block {
        Some(bytes) => read_table(bytes),
        None => None,
    }
}

// The head and the records of a database, each in its category, with the other file's block. More than a block can have counts
// as if there were no memory for it.
#[tactic(auto, unfolding(crate::specs::Likes::database_like))]
fn database_like(
    alloc: Global,
    database: &Database,
    other: &Table,
    block: &[u8],
    merging: &Merging,
) -> Result<Database, AllocError>
    requires plain { holds_resources database.now.head.attributes ≡ false }
    requires long { 276 ≤ length block.now }
    requires small { AreSmall merging.now.places }
    ensures { IfOk result (λ like. like
        ≡ likes.database_like database.now (table_value other.now).entries block.now
        (merging_value merging.now)) }
{
    let app = block_like(alloc, other, &merging.entries, block)?;
    let mut like = Database::new(alloc, database.head().copy());
    if like.set_app(Some(app)).is_err() {
        return Err(AllocError);
    }
    for item in database.records() {
        let copy = moved(alloc, &merging.places, item)?;
        push_record(&mut like, copy)?;
    }
    Ok(like)
}

// Puts a record behind the others.
fn push_record(database: &mut Database, item: Record) -> Result<(), AllocError>
    requires { holds_resources database.old.head.attributes ≡ false }
    ensures { OnOk result (database.new
        ≡ record database.old { records = database.old.records ++ item ∷ [] }) }
{
    match database.push_record(item) {
        Ok(()) => Ok(()),
        Err(_) => Err(AllocError),
    }
}

// A record once more, in the category to which its number goes.
fn moved(alloc: Global, places: &[u8; 16], item: &Record) -> Result<Record, AllocError>
    requires { AreSmall places.now }
    ensures { IfOk result (λ copy. copy ≡ likes.moved places.now item.now) }
{
    let mut content = item.content.copy(alloc)?;
    content.set_category(category_at(places, item.content.category()));
    Ok(Record {
        id: item.id,
        deleted: item.deleted,
        dirty: item.dirty,
        busy: item.busy,
        content,
    })
}

// The category to which a number goes.
fn category_at(places: &[u8; 16], category: Category) -> Category
    requires { AreSmall places.now }
    ensures { result ≡ slice_index places.now category }
{
    let Some(found) = Category::new(places[category.number() as usize]) else {
        unreachable!();
    };
    found
}
