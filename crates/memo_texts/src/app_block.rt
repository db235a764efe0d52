// The app block of a memo database.
ghost use Rattle.std.specs.Prelude.{◌≡◌, ◌≤◌, ◌+◌, ◌++◌, ◌∷◌, IfOk, OnOk, codes, length};
ghost use Rattle.std.specs.List.{flat_map};
ghost use Rattle.memo_texts.specs.Databases.{label_field, label_fields, memo_block};

use crate::label::Label;
use std::alloc::{AllocError, Global};

// The length of a label in the block.
const FIELD: usize = 16;

// Where the labels end.
const FIELDS_END: usize = 258;

// The ids of the sixteen categories, then the last id.
const IDS: [u8; 17] = [0, 1, 2, 3, 4, 5, 6, 7, 8, 9, 10, 11, 12, 13, 14, 15, 15];

// The length of the block.
const LENGTH: usize = 282;

/// The app block of a memo database whose categories from 1 on have these labels.
pub fn memo_block(alloc: Global, labels: &[Label]) -> Result<Vec<u8>, AllocError>
    requires { length labels.now ≤ 15 }
    ensures block { IfOk result (λ block. block.items ≡ memo_block labels.now) }
    ensures length { IfOk result (λ block. length block.items ≡ 282) }
{
    let mut block = Vec::with_capacity(alloc, LENGTH)?;
    block.extend_from_slice(&[0, 0])?;
    push_fields(&mut block, labels)?;
    block.extend_from_slice(&IDS)?;
    block.extend_from_slice(&[0; 7])?;
    Ok(block)
}

// Appends the sixteen labels.
fn push_fields(block: &mut Vec<u8>, labels: &[Label]) -> Result<(), AllocError>
    requires begin { length block.old.items ≡ 2 }
    requires few { length labels.now ≤ 15 }
    ensures fields { OnOk result (block.new.items
        ≡ block.old.items ++ label_fields (codes "Unfiled" ∷ labels.now)) }
    ensures length { OnOk result (length block.new.items ≡ 258) }
{
    push_field(block, b"Unfiled")?;
    for label in labels {
        push_field(block, label.as_slice())?;
    }
    block.resize(FIELDS_END, 0)?;
    Ok(())
}

// Appends a label in 16 bytes.
fn push_field(block: &mut Vec<u8>, label: &[u8]) -> Result<(), AllocError>
    requires { length label.now ≤ 15 }
    ensures field { OnOk result (block.new.items ≡ block.old.items ++ label_field label.now) }
    ensures length { OnOk result (length block.new.items ≡ length block.old.items + 16) }
{
    let end = block.len() + FIELD;
    block.extend_from_slice(label)?;
    block.resize(end, 0)?;
    Ok(())
}
