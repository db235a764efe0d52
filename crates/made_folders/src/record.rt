// Records of items.
ghost use Rattle.std.specs.Prelude.{◌≡◌, ◌≤◌, ◌<◌, ◌++◌, IfOk, OnOk, length, replicate};
ghost use Rattle.made_folders.specs.Drawn.{IsDrawn};
ghost use Rattle.made_folders.specs.Sides.{id_of as id_of_item, record_with, text_of as text_of_item};

use crate::item::Item;
use pdb_values::{Category, Content, Record, RecordId};
use std::alloc::{AllocError, Global};

/// A live record with the text of a letter.
pub fn record_of(alloc: Global, item: &Item, letter: u8) -> Result<Record, AllocError>
    requires { IsDrawn item.now }
    ensures { IfOk result (λ made. made ≡ record_with item.now letter) }
{
    let Some(id) = id_of(item) else {
        unreachable!()
    };
    let Some(category) = Category::new(0) else {
        unreachable!()
    };
    let text = text_of(alloc, item, letter)?;
    let Ok(content) = Content::new(category, false, text) else {
        unreachable!()
    };
    Ok(Record {
        id,
        deleted: false,
        dirty: letter == b'h',
        busy: false,
        content,
    })
}

// The id of the record of an item: none yet where the desktop made it.
fn id_of(item: &Item) -> Option<RecordId>
    requires { IsDrawn item.now }
    ensures { result ≡ Some (id_of_item item.now) }
{
    RecordId::new(if item.kind == 9 { 0 } else { item.number })
}

// The letter, the number in decimal, and the fill.
fn text_of(alloc: Global, item: &Item, letter: u8) -> Result<Vec<u8>, AllocError>
    requires { IsDrawn item.now }
    ensures text { IfOk result (λ text. text.items ≡ text_of_item letter item.now) }
    ensures short { IfOk result (λ text. length text.items ≤ 65500) }
{
    let number = item.number;
    let number = format!(in alloc; "{number}")?;
    let mut text = vec![in alloc; letter]?;
    text.extend_from_slice(number.as_bytes())?;
    push_fill(&mut text, item.fill)?;
    Ok(text)
}

// Appends so many letters `x`.
fn push_fill(text: &mut Vec<u8>, count: u32) -> Result<(), AllocError>
    ensures { OnOk result (text.new.items ≡ text.old.items ++ replicate count 120) }
{
    for _place in 0..count {
        text.push(b'x')?;
    }
    Ok(())
}
