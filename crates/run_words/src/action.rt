// What is done with one database, as a word says it.
ghost use Rattle.std.specs.Prelude.{◌≡◌, option_map};
ghost use Rattle.run_words.specs.Actions.{action_for, action_for_others, action_of_word, is_of as is_of_name, is_of_others as is_this_of_others, item_of, target_of};

use crate::stem::name_of;
use pdb_values::DbName;

/// What is done with one database.
#[derive(Clone, Copy, PartialEq, Eq)]
pub enum ActionWord {
    /// `sync`: both sides get the changes of the other.
    Sync,
    /// `handheld`: the desktop gets what the handheld has.
    Handheld,
    /// `desktop`: the handheld gets what the desktop has.
    Desktop,
    /// `both`: both sides get what is live on either, as if they had never met.
    Both,
    /// `nothing`: neither side is touched.
    Nothing,
}

/// What an item of the actions speaks of.
#[derive(Drop)]
pub enum Target {
    /// `*`: all databases that no other item names.
    Others,
    /// The database of a name.
    One(DbName),
}

/// What is done with the databases that an item speaks of.
#[derive(Drop)]
pub struct NamedAction {
    /// The databases.
    pub target: Target,
    /// What is done with them.
    pub action: ActionWord,
}

// The action that a word names.
fn action_in(word: &str) -> Option<ActionWord>
    ensures { result ≡ action_of_word word.now }
{
    if word == "sync" {
        Some(ActionWord::Sync)
    } else if word == "handheld" {
        Some(ActionWord::Handheld)
    } else if word == "desktop" {
        Some(ActionWord::Desktop)
    } else if word == "both" {
        Some(ActionWord::Both)
    } else if word == "nothing" {
        Some(ActionWord::Nothing)
    } else {
        None
    }
}

// What `*` or a stem speaks of.
fn target_in(text: &str) -> Option<Target>
    ensures { result ≡ target_of text.now }
{
    if text == "*" {
        return Some(Target::Others);
    }
    let name = name_of(text.as_bytes())?;
    Some(Target::One(name))
}

/// What an item `STEM:WORD` or `*:WORD` says.
#[tactic(auto, unfolding(crate::specs::Actions::item_of))]
pub fn item_in(item: &str) -> Option<NamedAction>
    ensures { result ≡ item_of item.now }
{
    let (stem, word) = item.split_once(':')?;
    let target = target_in(stem)?;
    let action = action_in(word)?;
    Some(NamedAction { target, action })
}

// Whether an action names a database.
fn is_of(action: &NamedAction, name: &DbName) -> bool
    ensures { result ≡ is_of_name name.now action.now }
{
    match &action.target {
        Target::Others => false,
        Target::One(other) => other.as_bytes() == name.as_bytes(),
    }
}

// Whether an action is of the databases that no item names.
fn is_of_others(action: &NamedAction) -> bool
    ensures { result ≡ is_this_of_others action.now }
{
    match action.target {
        Target::Others => true,
        Target::One(_) => false,
    }
}

// What is done with the databases that no item names: `sync`, where there is no `*`.
fn action_of_others(actions: &[NamedAction]) -> ActionWord
    ensures { result ≡ action_for_others actions.now }
{
    match actions.iter().find(|action| is_of_others(action)) {
        Some(found) => found.action,
        None => ActionWord::Sync,
    }
}

/// What is done with the database of a name: what the item says that names it, or else the one of `*`, or else `sync`.
pub fn action_of(actions: &[NamedAction], name: &DbName) -> ActionWord
    ensures { result ≡ action_for name.now actions.now }
{
    match actions.iter().find(|action| is_of(action, name)) {
        Some(found) => found.action,
        None => action_of_others(actions),
    }
}
