// The databases of a session, in byte order of their names.
ghost use Rattle.std.specs.Prelude.{◌≡◌, ◌++◌, ◌∷◌, [], IfOk, OnOk, find, is_some, map};
ghost use Rattle.std.specs.Option.{option_copied};
ghost use Rattle.std.specs.Str.{bytes_eq};
ghost use Rattle.pdb_values.specs.declared.head.DbHead.{DbHead as Head};
ghost use Rattle.desk_store.specs.Views.{parted_in, shelves_in};
ghost use Rattle.session_plan.specs.Choosing.{action_or_sync, is_fast_by};
ghost use Rattle.session_plan.specs.Jobs as jobs;
ghost use Rattle.session_plan.specs.Partings.{agrees_with};
ghost use Rattle.session_plan.specs.Skips.{head_of as head_in};
ghost use Rattle.session_plan.specs.Tasks.{action_of_word, names_of, with_names};

use crate::job::Job;
use crate::judge::{action_of, skip_of};
use crate::names::put_name;
use crate::partings::agrees_with;
use crate::wishes::Wishes;
use conduit_rules::Action;
use desk_store::Desk;
use hs_folders::Folder;
use pdb_values::{Database, DbHead, DbName};
use run_words::{ActionWord, action_of as word_for};
use std::alloc::{AllocError, Global};

// Whether a head is that of a name.
fn is_of(head: &DbHead, name: &DbName) -> bool
    ensures { result ≡ bytes_eq head.now.name name.now }
{
    head.name.as_bytes() == name.as_bytes()
}

// The head of a name.
fn head_named<'h>(heads: &'h [DbHead], name: &DbName) -> Option<&'h DbHead>
    ensures { option_copied result ≡ jobs.head_named name.now heads.entry.now }
{
    heads.iter().find(|head| is_of(head, name))
}

// The head of a database, where there is one.
fn head_of(database: Option<&Database>) -> Option<&DbHead>
    ensures { option_copied result ≡ head_in (option_copied database.entry) }
{
    match database {
        Some(database) => Some(database.head()),
        None => None,
    }
}

// The same head once more, where there is one.
fn same_head(head: Option<&DbHead>) -> Option<DbHead>
    ensures { result ≡ option_copied head.entry }
{
    match head {
        Some(head) => Some(head.copy()),
        None => None,
    }
}

// Whether a database is read fast.
fn is_fast(
    agree: bool,
    slow: bool,
    action: Option<Action>,
    handheld: bool,
    rows: bool,
    base: bool,
) -> bool
    ensures { result ≡ is_fast_by agree slow (action_or_sync action) handheld rows base }
{
    let is_sync = match action {
        Some(Action::Sync) | None => true,
        Some(Action::Handheld | Action::Desktop | Action::Both) => false,
    };
    agree && !slow && is_sync && handheld && rows && base
}

// Whether there is a head.
fn has_head(head: Option<&DbHead>) -> bool
    ensures { result ≡ is_some (option_copied head.entry) }
{
    match head {
        Some(_) => true,
        None => false,
    }
}

// Whether there is a database.
fn has_database(database: Option<&Database>) -> bool
    ensures { result ≡ is_some (option_copied database.entry) }
{
    match database {
        Some(_) => true,
        None => false,
    }
}

// A database of a session, as both sides show it.
fn job(
    name: &DbName,
    handheld: Option<&DbHead>,
    rows: Option<&DbHead>,
    base: bool,
    word: ActionWord,
    agree: bool,
    slow: bool,
) -> Job
    ensures { result ≡ jobs.job_by name.now (option_copied handheld.entry)
        (option_copied rows.entry) base (action_of_word word) agree slow }
{
    let action = action_of(word);
    Job {
        name: name.copy(),
        handheld: same_head(handheld),
        rows: same_head(rows),
        action,
        skip: skip_of(action, handheld, rows, base),
        fast: is_fast(
            agree,
            slow,
            action,
            has_head(handheld),
            has_head(rows),
            base,
        ),
    }
}

// The database of a name.
fn job_of<D: Folder>(
    heads: &[DbHead],
    desk: &Desk<D>,
    agree: bool,
    wishes: &Wishes,
    name: &DbName,
) -> Job
    ensures { result ≡ jobs.job_of heads.now (shelves_in desk.now)
        (agrees_with agree (parted_in desk.now)) wishes.now name.now }
{
    let agree = agrees_with(desk, agree, name);
    let handheld = head_named(heads, name);
    let rows = head_of(desk.rows(name));
    let base = has_database(desk.base(name));
    let word = word_for(&wishes.actions, name);
    job(name, handheld, rows, base, word, agree, wishes.slow)
}

// Puts the names of these heads among others.
fn put_heads(names: &mut Vec<DbName>, heads: &[DbHead]) -> Result<(), AllocError>
    ensures { OnOk result (names.new.items
        ≡ with_names (map (λ (head : Head). head.name) heads.now) names.old.items) }
{
    for head in heads {
        put_name(names, head.name.copy())?;
    }
    Ok(())
}

// Puts the names of the slot's rows among others.
#[tactic(auto, using(crate::proofs::NamesLaws::rows_end, crate::proofs::NamesLaws::rows_more))]
fn put_rows<D: Folder>(names: &mut Vec<DbName>, desk: &Desk<D>) -> Result<(), AllocError>
    ensures { OnOk result (names.new.items
        ≡ with_names (names_of (shelves_in desk.now).rows) names.old.items) }
{
    for index in 0..desk.len() {
        if let Some(name) = desk.name(index) {
            put_name(names, name.copy())?;
        }
    }
    Ok(())
}

/// The databases of a session, in byte order of their names: those whose heads the handheld listed, and those that have rows in
/// the picked slot. Of two heads of one name the first counts, and their database is there once. `agree` says whether the marks
/// of both sides agree.
#[tactic(auto, unfolding(crate::specs::Jobs::jobs_of))]
pub fn jobs_of<D: Folder>(
    alloc: Global,
    heads: &[DbHead],
    desk: &Desk<D>,
    agree: bool,
    wishes: &Wishes,
) -> Result<Vec<Job>, AllocError>
    ensures { IfOk result (λ made. made.items
        ≡ jobs.jobs_of heads.now (shelves_in desk.now)
        (agrees_with agree (parted_in desk.now)) wishes.now) }
{
    let mut names = Vec::new(alloc);
    put_heads(&mut names, heads)?;
    put_rows(&mut names, desk)?;
    let mut made = Vec::new(alloc);
    for name in &names {
        made.push(job_of(heads, desk, agree, wishes, name))?;
    }
    Ok(made)
}
