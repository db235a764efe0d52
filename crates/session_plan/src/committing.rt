// What the desktop commits.
ghost use Rattle.std.specs.Prelude.{◌≡◌, ◌++◌, IfOk, OnOk, option_to_list};
ghost use Rattle.std.specs.List.{AllByRecursion};
ghost use Rattle.desk_store.specs.Changes.{IsDbChange, IsDeskChange, MayBear};
ghost use Rattle.desk_store.specs.Views.{picked_slot, shelves_in};
ghost use Rattle.session_plan.specs.Commits.{CommitsPlanned};
ghost use Rattle.session_plan.specs.Fits.{AreTakeable, CanTake};
ghost use Rattle.session_plan.specs.Takes as takes;

use crate::partings::parted_after;
use crate::planned::Planned;
use crate::taking::take_one;
use desk_store::{CommitFault, DbChange, Desk, DeskChange};
use hs_folders::Folder;
use pdb_values::{Marks, PalmDate, RecordId, UserInfo};
use std::alloc::{AllocError, Global};

// Puts a change behind others, where there is one.
fn put_change(changes: &mut Vec<DbChange>, change: Option<DbChange>) -> Result<(), AllocError>
    ensures { OnOk result (changes.new.items ≡ changes.old.items ++ option_to_list change) }
{
    match change {
        Some(change) => {
            changes.push(change)?;
            Ok(())
        }
        None => Ok(()),
    }
}

// The changes of planned databases, whose new records got these ids, one list for each.
fn take_all<D: Folder>(
    alloc: Global,
    desk: &Desk<D>,
    date: PalmDate,
    planned: &[Planned],
    ids: &[Vec<RecordId>],
) -> Result<Vec<DbChange>, AllocError>
    requires { AreTakeable date (shelves_in desk.now) planned.now (takes.each_of ids.now) }
    ensures changes { IfOk result (λ changes. changes.items
        ≡ takes.changes_of date (shelves_in desk.now) planned.now (takes.each_of ids.now)) }
    ensures fit { IfOk result (λ changes. AllByRecursion IsDbChange changes.items) }
{
    let mut changes = Vec::new(alloc);
    for (index, one) in planned.iter().enumerate() {
        let change = take_one(alloc, desk, date, one, &ids[index])?;
        put_change(&mut changes, change)?;
    }
    Ok(changes)
}

// The change of the picked slot, which the desktop takes.
fn change_all<D: Folder>(
    alloc: Global,
    desk: &Desk<D>,
    planned: &[Planned],
    ids: &[Vec<RecordId>],
    user: &UserInfo,
    done: Marks,
) -> Result<DeskChange, AllocError>
    requires { let each = takes.each_of ids.now in
        CanTake done planned.now each desk.now.picked desk.now.slots }
    ensures marks { IfOk result (λ change. change.marks ≡ done) }
    ensures parted { IfOk result (λ change. change.parted.items
        ≡ takes.parted_after user.now (picked_slot desk.now) planned.now) }
    ensures changes { IfOk result (λ change. change.databases.items
        ≡ takes.changes_of done.last (shelves_in desk.now) planned.now (takes.each_of ids.now)) }
    ensures fit { IfOk result IsDeskChange }
    ensures bears { IfOk result (λ change. MayBear desk.now.slots desk.now.picked change.marks) }
{
    let databases = take_all(alloc, desk, done.last, planned, ids)?;
    let parted = parted_after(alloc, desk, user, planned)?;
    Ok(DeskChange {
        marks: done,
        parted,
        databases,
    })
}

/// Commits what was planned for databases, whose new records got these ids, one list for each: in the desktop's picked slot each of them
/// that is not skipped gets its rows, its base rows and its archive, at the date of the marks that end the session with this user, and the
/// slot these marks. A refusal hands the folder back. What a session planned, with the ids that its handheld gave, the slot of its user can take.
pub fn commit_all<D: Folder>(
    alloc: Global,
    desk: Desk<D>,
    planned: &[Planned],
    ids: &[Vec<RecordId>],
    user: &UserInfo,
    done: Marks,
) -> Result<Desk<D>, (CommitFault, D)>
    requires { let each = takes.each_of ids.now in
        CanTake done planned.now each desk.picked desk.slots }
    ensures commits { CommitsPlanned D.contents D.moments D.paths D.faults done user.now
        planned.now (takes.each_of ids.now) desk result }
{
    match change_all(alloc, &desk, planned, ids, user, done) {
        Ok(change) => desk.commit(change),
        Err(fault) => Err((CommitFault::from(fault), desk.into_folder())),
    }
}
