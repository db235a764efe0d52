// The actions of `--actions=L`.
ghost use Rattle.std.specs.Prelude.{◌≡◌, ◌↔◌, ◌<◌, ◌∷◌, IfOk, IfSome, List, Some, length, option_copied, true};
ghost use Rattle.run_words.specs.Actions.{IsActionsText, AreActions, actions_in, actions_text, has_stem as items_have_stem, is_actions_text, is_next as is_next_item, items_of, stem_in as stem_in_item};

use crate::action::{NamedAction, item_in};
use std::alloc::{AllocError, Global};

// What stands before the first colon of an item.
fn stem_in(item: &str) -> &str
    ensures { result.now ≡ stem_in_item item.entry.now }
{
    match item.split_once(':') {
        Some((stem, _)) => stem,
        None => item,
    }
}

/// The first item of some, and those behind the first comma.
pub(crate) fn first_item(items: &str) -> (&str, Option<&str>)
    ensures items { items_of (Some items.entry.now)
        ≡ result.0.now ∷ items_of (option_copied result.1) }
    ensures shorter { IfSome result.1 (λ more. length more.now < length items.entry.now) }
{
    match items.split_once(',') {
        Some((first, more)) => (first, Some(more)),
        None => (items, None),
    }
}

// Whether one of these items has this stem.
fn has_stem(items: Option<&str>, stem: &str) -> bool
    ensures { result ≡ items_have_stem stem.now (items_of (option_copied items.entry)) }
{
    let mut rest = items;
    while let Some(items) = rest {
        let (item, more) = first_item(items);
        if stem_in(item) == stem {
            return true;
        }
        rest = more;
    }
    false
}

// Whether this is an item, whose stem no item behind it has.
fn is_next(item: &str, more: Option<&str>) -> bool
    ensures { result ≡ is_next_item item.now (items_of (option_copied more.entry)) }
{
    if item_in(item).is_none() {
        return false;
    }
    !has_stem(more, stem_in(item))
}

/// Whether a text is that of some actions: items `STEM:WORD` or `*:WORD` with one comma between them, no stem and no `*` twice.
pub fn is_actions(text: &str) -> bool
    ensures test { result ≡ is_actions_text text.now }
    ensures meaning { (result ≡ true) ↔ IsActionsText text.now }
{
    are_actions(text)
}

// The same by its items.
fn are_actions(text: &str) -> bool
    ensures { result ≡ is_actions_text text.now }
{
    let mut rest = Some(text);
    while let Some(items) = rest {
        let (item, more) = first_item(items);
        if !is_next(item, more) {
            return false;
        }
        rest = more;
    }
    true
}

/// The actions of a text, in its order. A text that passes `is_actions` is that of the actions given, and of no others.
pub fn read_actions(alloc: Global, text: &str) -> Result<Vec<NamedAction>, AllocError>
    ensures actions { IfOk result (λ actions. actions.items ≡ actions_in text.now) }
    ensures written { is_actions_text text.now ≡ true → IfOk result (λ actions.
        AreActions actions.items × (text.now ≡ actions_text actions.items)) }
    ensures only { (others : List NamedAction) → AreActions others
        → text.now ≡ actions_text others → IfOk result (λ actions. actions.items ≡ others) }
{
    let actions = items_in(alloc, text)?;
    Ok(actions)
}

// What the items of a text say, in its order.
fn items_in(alloc: Global, text: &str) -> Result<Vec<NamedAction>, AllocError>
    ensures { IfOk result (λ actions. actions.items ≡ actions_in text.now) }
{
    let mut actions = Vec::new(alloc);
    let mut rest = Some(text);
    while let Some(items) = rest {
        let (item, more) = first_item(items);
        if let Some(action) = item_in(item) {
            actions.push(action)?;
        }
        rest = more;
    }
    Ok(actions)
}
