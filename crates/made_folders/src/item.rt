// Items, drawn by a generator.
ghost use Rattle.std.specs.Prelude.{◌≡◌, ◌≤◌, All, IfOk, vec_len};
ghost use Rattle.made_folders.specs.Drawn.{IsDrawn};
ghost use Rattle.made_folders.specs.Items.{item_of, made};

use rand_core::utils::NextWord;
use rand_pcg::Lcg64Xsh32;
use std::alloc::{AllocError, Global};

/// What was drawn for a number.
#[derive(Clone, Copy)]
pub struct Item {
    /// The number, from 1 on.
    pub number: u32,
    /// From 0 to 9: what was changed.
    pub kind: u32,
    /// How many letters `x` stand behind the number.
    pub fill: u32,
}

/// The items of a seed, up to a count of at most 5,000.
pub fn make_items(alloc: Global, seed: u64, count: u32) -> Result<Vec<Item>, AllocError>
    requires { count ≤ 5000 }
    ensures items { IfOk result (λ items. items.items ≡ made seed count) }
    ensures count { IfOk result (λ items. vec_len items ≡ count) }
    ensures drawn { IfOk result (λ items. All IsDrawn items.items) }
{
    let mut generator = Lcg64Xsh32::new(seed, 0);
    let mut items = Vec::new(alloc);
    for place in 0..count {
        let word = generator.next_word();
        items.push(drawn_item(place + 1, word))?;
    }
    Ok(items)
}

// The item of a number and its word.
fn drawn_item(number: u32, word: u32) -> Item
    requires { number ≤ 5000 }
    ensures item { result ≡ item_of number word }
    ensures drawn { IsDrawn result }
{
    Item {
        number,
        kind: word % 10,
        fill: word / 16 % 200,
    }
}
