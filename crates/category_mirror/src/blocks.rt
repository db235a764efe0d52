// The tables of both sides' app blocks.
ghost use Rattle.std.specs.Prelude.{◌≡◌, IfOk, IfSome, drop};
ghost use Rattle.std.specs.Option.{option_copied, option_map, option_or};
ghost use Rattle.category_tables.specs.Tables.{IsTable, table_value};
ghost use Rattle.pdb_values.specs.Blocks.{block_of};
ghost use Rattle.category_mirror.specs.Blocks as blocks;

use crate::merge::{Merge, head_of, rest_of};
use category_tables::{Table, read_table};
use pdb_values::Database;
use std::alloc::{AllocError, Global};

// The table of an app block, where its first 276 bytes are one.
fn table_of(block: Option<&[u8]>) -> Option<Table>
    ensures table { option_map table_value result ≡ blocks.block_table (option_copied block.entry) }
    ensures whole { IfSome result (λ table. IsTable (table_value table)) }
{
    match block {
        Some(bytes) => read_table(head_of(bytes)),
        None => None,
    }
}

// The bytes of a block; none where it is not there.
pub(crate) fn bytes_of(block: Option<&[u8]>) -> &[u8]
    ensures { result.now ≡ blocks.block_bytes (option_copied block.entry) }
{
    match block {
        Some(bytes) => bytes,
        None => &[],
    }
}

// A block, or another where it is not there.
fn or_other<'b>(block: Option<&'b [u8]>, other: Option<&'b [u8]>) -> Option<&'b [u8]>
    ensures { option_copied result ≡ option_or (option_copied block.entry)
        (option_copied other.entry) }
{
    match block {
        Some(bytes) => Some(bytes),
        None => other,
    }
}

// A block that the other side may get.
fn lent(block: Option<&[u8]>) -> Option<&[u8]>
    ensures { option_copied result ≡ blocks.lent (option_copied block.entry) }
{
    let bytes = block?;
    if bytes.len() > Database::LIMIT {
        return None;
    }
    Some(bytes)
}

// What stands behind the table of a block, once more.
fn rest_copied(alloc: Global, block: Option<&[u8]>) -> Result<Vec<u8>, AllocError>
    ensures { IfOk result (λ rest. rest.items
        ≡ drop 276 (blocks.block_bytes (option_copied block.entry))) }
{
    let mut rest = Vec::new(alloc);
    rest.extend_from_slice(rest_of(bytes_of(block)))?;
    Ok(rest)
}

// The merge of the blocks of both sides, where each begins with a table, or one does and the other side has none.
#[tactic(auto, unfolding(crate::specs::Blocks::blocks_merge))]
pub(crate) fn blocks_merge(
    alloc: Global,
    handheld: Option<&[u8]>,
    desktop: Option<&[u8]>,
) -> Result<Option<Merge>, AllocError>
    ensures { IfOk result (λ merge. merge ≡ blocks.blocks_merge (option_copied handheld.entry)
        (option_copied desktop.entry)) }
{
    let own = or_other(handheld, lent(desktop));
    let other = or_other(desktop, handheld);
    let Some(handheld) = table_of(own) else {
        return Ok(None);
    };
    let Some(desktop) = table_of(other) else {
        return Ok(None);
    };
    let rest = rest_copied(alloc, other)?;
    Ok(Some(Merge::of(&handheld, &desktop, rest)))
}

// The block that the handheld gets, where its own differs.
pub(crate) fn written_block(
    alloc: Global,
    block: Option<&[u8]>,
    merge: &Option<Merge>,
) -> Result<Option<Vec<u8>>, AllocError>
    ensures { IfOk result (λ written. block_of written
        ≡ blocks.written_block (option_copied block.entry) merge.now) }
{
    let Some(merge) = merge else {
        return Ok(None);
    };
    if merge.begins(alloc, bytes_of(block))? {
        return Ok(None);
    }
    Ok(Some(merge.block(alloc, block)?))
}
