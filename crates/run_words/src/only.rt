// The databases of `--only=L`.
ghost use Rattle.std.specs.Prelude.{◌≡◌, IfOk, List, ℕ, option_copied};
ghost use Rattle.run_words.specs.Actions.{action_for};
ghost use Rattle.run_words.specs.Cables.{cable_actions as actions_of_cable, only_of};
ghost use Rattle.run_words.specs.Choices.{action_among, are_stems as are_stems_in, given_actions as given_by, names_in, restricted as restricted_actions, restricted_to as restricted_by};
ghost use Rattle.run_words.specs.Runs.{run_actions as actions_of_run};
ghost use Rattle.run_words.specs.Views.{cable_view, run_view};
ghost use Rattle.run_words.specs.declared.action.NamedAction.{NamedAction as ActionValue};

use crate::action::{ActionWord, NamedAction, Target, action_of};
use crate::action_list::{first_item, read_actions};
use crate::cable::CableWords;
use crate::run::RunWords;
use crate::stem::name_of;
use pdb_values::DbName;
use std::alloc::{AllocError, Global};

/// The stems of the databases of a handheld's own applications: those of the first four, and those of their successors.
const OWN_STEMS: &str =
    "MemoDB,AddressDB,DatebookDB,ToDoDB,ContactsDB-PAdd,CalendarDB-PDat,TasksDB-PTod,MemosDB-PMem";

/// Whether a text is that of stems, with one comma between them.
pub(crate) fn are_stems(text: &str) -> bool
    ensures { result ≡ are_stems_in text.now }
{
    let mut rest = Some(text);
    while let Some(items) = rest {
        let (item, more) = first_item(items);
        if name_of(item.as_bytes()).is_none() {
            return false;
        }
        rest = more;
    }
    true
}

// The names of the stems of a text.
fn read_names(alloc: Global, text: &str) -> Result<Vec<DbName>, AllocError>
    ensures { IfOk result (λ names. names.items ≡ names_in text.now) }
{
    let mut names = Vec::new(alloc);
    let mut rest = Some(text);
    while let Some(items) = rest {
        let (item, more) = first_item(items);
        if let Some(name) = name_of(item.as_bytes()) {
            names.push(name)?;
        }
        rest = more;
    }
    Ok(names)
}

// The action of each of these names, and nothing for all other databases.
fn restricted(
    alloc: Global,
    names: &[DbName],
    actions: &[NamedAction],
) -> Result<Vec<NamedAction>, AllocError>
    ensures { IfOk result (λ only. only.items ≡ restricted_actions names.now actions.now) }
{
    let mut only = Vec::new(alloc);
    for name in names {
        only.push(NamedAction {
            target: Target::One(name.copy()),
            action: action_of(actions, name),
        })?;
    }
    only.push(NamedAction {
        target: Target::Others,
        action: ActionWord::Nothing,
    })?;
    Ok(only)
}

// The actions of the text that is given, and none where none is.
fn given_actions(alloc: Global, text: Option<&str>) -> Result<Vec<NamedAction>, AllocError>
    ensures { IfOk result (λ actions. actions.items ≡ given_by (option_copied text.entry)) }
{
    match text {
        Some(text) => read_actions(alloc, text),
        None => Ok(Vec::new(alloc)),
    }
}

// The actions where these stems alone are touched, if any are given.
fn restricted_to(
    alloc: Global,
    stems: Option<&str>,
    actions: Vec<NamedAction>,
) -> Result<Vec<NamedAction>, AllocError>
    ensures { IfOk result (λ only. only.items
        ≡ restricted_by (option_copied stems.entry) actions.items) }
{
    match stems {
        None => Ok(actions),
        Some(stems) => {
            let names = read_names(alloc, stems)?;
            restricted(alloc, &names, &actions)
        }
    }
}

// The stems of the databases that these words touch.
fn only_stems<'a>(words: &CableWords<'a>) -> Option<&'a str>
    ensures { option_copied result ≡ only_of (cable_view words.now) }
{
    match words.only {
        Some(stems) => Some(stems),
        None if words.actions.is_none() => Some(OWN_STEMS),
        None => None,
    }
}

/// What a run does with the databases: what its words say, and where these name some by `--only`, nothing with all others.
pub fn run_actions(alloc: Global, words: &RunWords<'_>) -> Result<Vec<NamedAction>, AllocError>
    ensures { IfOk result (λ actions. actions.items ≡ actions_of_run (run_view words.now)) }
{
    let actions = given_actions(alloc, words.choice.actions)?;
    restricted_to(alloc, words.choice.only, actions)
}

/// What is done with the databases: what these words say, and nothing with those that they don't touch.
pub fn cable_actions(alloc: Global, words: &CableWords<'_>) -> Result<Vec<NamedAction>, AllocError>
    ensures { IfOk result (λ actions. actions.items ≡ actions_of_cable (cable_view words.now)) }
{
    let actions = given_actions(alloc, words.actions)?;
    restricted_to(alloc, only_stems(words), actions)
}

/// Where these databases alone are touched, nothing is done with any other, and with each of them what the words say.
pub fn only_these_are_touched()
    ensures { (names : List (List ℕ)) (actions : List ActionValue) (name : List ℕ)
        → action_for name (restricted_actions names actions) ≡ action_among names actions name }
{}
