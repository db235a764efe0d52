// The app block and the sort block of a database, and how many entries it has.
ghost use Rattle.std.specs.Prelude.{◌≡◌, ◌≤◌, ◌↔◌, IfOk, IsTrue, OnErr, OnOk, length};
ghost use Rattle.std.specs.Option.{option_copied};
ghost use Rattle.pdb_values.specs.Blocks.{block_length, block_of};
ghost use Rattle.palm_device.specs.Blocks as blocks;
ghost use Rattle.palm_device.specs.Edits.{Tells};

use pdb_values::Database;
use std::alloc::{AllocError, Global};

// The bytes as a block; no bytes stand for no block.
fn block_or_none(alloc: Global, bytes: &[u8]) -> Result<Option<Vec<u8>>, AllocError>
    ensures { IfOk result (λ block. block_of block ≡ blocks.block_or_none bytes.now) }
{
    if bytes.is_empty() {
        return Ok(None);
    }
    Ok(Some(Vec::from_slice(alloc, bytes)?))
}

// Whether a block is this one, or both are none.
fn is_block(block: Option<&[u8]>, other: &Option<Vec<u8>>) -> bool
    ensures { IsTrue result ↔ (block_of other.now ≡ option_copied block.entry) }
{
    block == other.as_deref()
}

/// Sets or takes away the app block. Answers whether that makes another database.
#[tactic(auto, using(crate::proofs::TellingLaws::tells_app))]
pub fn set_app(database: &mut Database, block: Option<Vec<u8>>) -> bool
    requires { block_length (block_of block) ≤ 65500 }
    ensures set { database.new ≡ record database.old { app = block_of block } }
    ensures differs { Tells database.old (record database.old { app = block_of block }) result }
{
    let same = is_block(database.app(), &block);
    match database.set_app(block) {
        Ok(()) => {}
        Err(_) => unreachable!(),
    }
    !same
}

/// Sets or takes away the sort block. Answers whether that makes another database.
#[tactic(auto, using(crate::proofs::TellingLaws::tells_sort))]
pub fn set_sort(database: &mut Database, block: Option<Vec<u8>>) -> bool
    requires { block_length (block_of block) ≤ 65500 }
    ensures set { database.new ≡ record database.old { sort = block_of block } }
    ensures differs { Tells database.old (record database.old { sort = block_of block }) result }
{
    let same = is_block(database.sort(), &block);
    match database.set_sort(block) {
        Ok(()) => {}
        Err(_) => unreachable!(),
    }
    !same
}

/// Sets the app block to these bytes, or takes it away where there is none. Answers whether that makes another database.
pub fn put_app(alloc: Global, database: &mut Database, bytes: &[u8]) -> Result<bool, AllocError>
    requires { length bytes.now ≤ 65500 }
    ensures put { OnOk result (database.new ≡ blocks.with_app bytes.now database.old) }
    ensures differs { IfOk result (Tells database.old (blocks.with_app bytes.now database.old)) }
    ensures stays { OnErr result (database.new ≡ database.old) }
{
    let block = block_or_none(alloc, bytes)?;
    Ok(set_app(database, block))
}

/// Sets the sort block to these bytes, or takes it away where there is none. Answers whether that makes another database.
pub fn put_sort(alloc: Global, database: &mut Database, bytes: &[u8]) -> Result<bool, AllocError>
    requires { length bytes.now ≤ 65500 }
    ensures put { OnOk result (database.new ≡ blocks.with_sort bytes.now database.old) }
    ensures differs { IfOk result (Tells database.old (blocks.with_sort bytes.now database.old)) }
    ensures stays { OnErr result (database.new ≡ database.old) }
{
    let block = block_or_none(alloc, bytes)?;
    Ok(set_sort(database, block))
}

/// How many records or resources there are, deleted records included.
pub fn entry_count(database: &Database) -> u16
    ensures { result ≡ blocks.entry_count database.now }
{
    if database.head().holds_resources() {
        database.resources().len() as u16
    } else {
        database.records().len() as u16
    }
}
