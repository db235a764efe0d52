// The app block of another file, with new labels in it.
ghost use Rattle.std.specs.Prelude.{◌≡◌, ◌<◌, ◌≤◌, ◌++◌, IfOk, OnOk, length, map};
ghost use Rattle.category_tables.specs.Likes as likes;
ghost use Rattle.category_tables.specs.Tables.{entry_value, table_value};

use crate::table::{Entry, Table};
use crate::write::push_label;
use std::alloc::{AllocError, Global};

// Whether the other table doesn't use an entry that now has a label.
fn is_filled(other: &Table, entries: &[Entry; 16], number: usize) -> bool
    requires { number < 16 }
    ensures { result
        ≡ likes.is_filled (table_value other.now).entries (map entry_value entries.now) number }
{
    !other.is_used(number) && entries[number].has_label()
}

// Appends the label of a number: a new one, or the bytes that stand in the block.
fn push_label_like(
    other: &Table,
    entries: &[Entry; 16],
    block: &[u8],
    number: usize,
    out: &mut Vec<u8>,
) -> Result<(), AllocError>
    requires long { 276 ≤ length block.now }
    requires few { number < 16 }
    ensures { OnOk result (out.new.items ≡ out.old.items
        ++ likes.label_like (table_value other.now).entries (map entry_value entries.now) block.now number) }
{
    if is_filled(other, entries, number) {
        return push_label(&entries[number], out);
    }
    let begin = 2 + 16 * number;
    out.extend_from_slice(&block[begin..begin + 16])
}

// Appends the label of each number.
fn push_labels_like(
    other: &Table,
    entries: &[Entry; 16],
    block: &[u8],
    out: &mut Vec<u8>,
) -> Result<(), AllocError>
    requires { 276 ≤ length block.now }
    ensures { OnOk result (out.new.items ≡ out.old.items
        ++ likes.labels_like (table_value other.now).entries (map entry_value entries.now) block.now 16) }
{
    for number in 0..16 {
        push_label_like(other, entries, block, number, out)?;
    }
    Ok(())
}

// The id of a number: a new one, or the byte that stands in the block.
fn id_like(other: &Table, entries: &[Entry; 16], block: &[u8], number: usize) -> u8
    requires long { 276 ≤ length block.now }
    requires few { number < 16 }
    ensures { result
        ≡ likes.id_like (table_value other.now).entries (map entry_value entries.now) block.now number }
{
    if is_filled(other, entries, number) {
        entries[number].id
    } else {
        block[258 + number]
    }
}

// Appends the id of each number.
fn push_ids_like(
    other: &Table,
    entries: &[Entry; 16],
    block: &[u8],
    out: &mut Vec<u8>,
) -> Result<(), AllocError>
    requires { 276 ≤ length block.now }
    ensures { OnOk result (out.new.items ≡ out.old.items
        ++ likes.ids_like (table_value other.now).entries (map entry_value entries.now) block.now 16) }
{
    for number in 0..16 {
        out.push(id_like(other, entries, block, number))?;
    }
    Ok(())
}

/// The block of the other table with these entries. All that isn't new stays as it is.
pub fn block_like(
    alloc: Global,
    other: &Table,
    entries: &[Entry; 16],
    block: &[u8],
) -> Result<Vec<u8>, AllocError>
    requires { 276 ≤ length block.now }
    ensures { IfOk result (λ bytes. bytes.items
        ≡ likes.block_like (table_value other.now).entries (map entry_value entries.now) block.now) }
{
    let mut out = Vec::with_capacity(alloc, block.len())?;
    out.extend_from_slice(&block[..2])?;
    push_labels_like(other, entries, block, &mut out)?;
    push_ids_like(other, entries, block, &mut out)?;
    out.extend_from_slice(&block[274..])?;
    Ok(out)
}
