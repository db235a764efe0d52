// Whether a session would cost the desktop live rows.
ghost use Rattle.std.specs.Prelude.{◌≡◌, ◌++◌, find, option_copied};
ghost use Rattle.std.specs.List.{list_any};
ghost use Rattle.conduit_rules.specs.Contents.{same_content};
ghost use Rattle.desk_store.specs.Views.{marks_in, parted_in, shelves_in};
ghost use Rattle.pdb_values.specs.declared.record.Record.{Record as Entry};
ghost use Rattle.session_plan.specs.Archives.{entries_of};
ghost use Rattle.session_plan.specs.Choosing.{action_or_sync, is_sync};
ghost use Rattle.session_plan.specs.Losses as losses;
ghost use Rattle.session_plan.specs.PlannedLosses as planned_losses;

use crate::archive::is_same;
use crate::limits::archived;
use crate::partings::is_unmet;
use crate::planned::Planned;
use crate::planning::{base_records, records_in};
use crate::strangers::{has_lost_all, is_stranger_to};
use conduit_rules::{Action, Plan};
use desk_store::Desk;
use hs_folders::Folder;
use pdb_values::{Content, DbName, Record, RecordId, UserInfo};

// Whether a row has this content.
fn has_content(row: &(RecordId, Content), content: &Content) -> bool
    ensures { result ≡ same_content row.now.1 content.now }
{
    is_same(&row.1, content)
}

// Whether one of these rows has this content.
fn is_among(rows: &[(RecordId, Content)], content: &Content) -> bool
    ensures { result ≡ losses.is_among rows.now content.now }
{
    rows.iter().any(|row| has_content(row, content))
}

// Whether a new row has this content.
fn is_added(new: &[Content], content: &Content) -> bool
    ensures { result ≡ list_any (λ new. same_content new content.now) new.now }
{
    new.iter().any(|new| is_same(new, content))
}

// Whether one of these records has this content.
fn is_held(records: &[Record], content: &Content) -> bool
    ensures { result ≡ list_any (λ (held : Entry). same_content held.content content.now) records.now }
{
    records
        .iter()
        .any(|record| is_same(&record.content, content))
}

// Whether an entry of an archive has this content.
#[tactic(auto, using(crate::proofs::LossLaws::is_among_entries))]
fn is_archived(archive: &[Record], content: &Content) -> bool
    ensures { result ≡ losses.is_among (entries_of archive.now) content.now }
{
    is_held(archive, content)
}

// Whether a row that is kept has this content, or a new one, or an entry of the archive.
#[tactic(auto, using(crate::proofs::LossLaws::is_among_both))]
fn stays(plan: &Plan, archive: &[Record], content: &Content) -> bool
    ensures { result ≡ losses.stays plan.now.kept.items plan.now.adds.items
        (entries_of archive.now ++ plan.now.archive.items) content.now }
{
    is_among(&plan.kept, content)
        || is_added(&plan.adds, content)
        || is_archived(archive, content)
        || is_among(&plan.archive, content)
}

// Whether a row is live and its content doesn't stay.
fn is_lost(plan: &Plan, archive: &[Record], row: &Record) -> bool
    ensures { result ≡ losses.is_lost plan.now.kept.items plan.now.adds.items
        (entries_of archive.now ++ plan.now.archive.items) row.now }
{
    !row.deleted && !stays(plan, archive, &row.content)
}

// Whether a plan leaves the content of some live row neither live nor archived, behind this archive.
fn loses(plan: &Plan, archive: &[Record], rows: &[Record]) -> bool
    ensures { result ≡ list_any (losses.is_lost plan.now.kept.items plan.now.adds.items
        (entries_of archive.now ++ plan.now.archive.items)) rows.now }
{
    rows.iter().any(|row| is_lost(plan, archive, row))
}

// Whether a database goes by both sides and by their base.
fn goes_by_both(action: Option<Action>) -> bool
    ensures { result ≡ is_sync (action_or_sync action) }
{
    match action {
        None | Some(Action::Sync) => true,
        Some(Action::Handheld | Action::Desktop | Action::Both) => false,
    }
}

// Whether the handheld is a stranger to the slot or to a planned database, or lost it.
fn may_lose<D: Folder>(desk: &Desk<D>, handheld: &UserInfo, one: &Planned) -> bool
    ensures { result ≡ planned_losses.may_lose_planned handheld.now (marks_in desk.now)
        (parted_in desk.now) (shelves_in desk.now) one.now }
{
    let name = &one.job.name;
    let base = base_records(desk.rows(name), desk.base(name));
    (is_stranger_to(handheld, desk.marks()) || is_unmet(desk.parting(name)))
        || has_lost_all(base, &one.view.seen)
}

// Whether a planned database is not skipped, goes by both sides and their base, and costs the desktop live rows.
fn is_loss<D: Folder>(desk: &Desk<D>, handheld: &UserInfo, one: &Planned) -> bool
    ensures { result ≡ planned_losses.is_loss_planned handheld.now (marks_in desk.now)
        (parted_in desk.now) (shelves_in desk.now) one.now }
{
    let name = &one.job.name;
    one.job.skip.is_none()
        && goes_by_both(one.job.action)
        && may_lose(desk, handheld, one)
        && loses(&one.plan, archived(desk, name), records_in(desk.rows(name)))
}

// The first of these databases that costs the desktop live rows.
fn first_in<'p, D: Folder>(
    desk: &Desk<D>,
    handheld: &UserInfo,
    planned: &'p [Planned],
) -> Option<&'p Planned>
    ensures { option_copied result ≡ find (planned_losses.is_loss_planned handheld.now (marks_in desk.now)
        (parted_in desk.now) (shelves_in desk.now)) planned.entry.now }
{
    planned.iter().find(|one| is_loss(desk, handheld, one))
}

/// The name of the first planned database by which the session would cost the desktop live rows: it is not skipped and goes by both sides
/// and their base, the handheld is a stranger to the desktop's slot or to the database, or has none of the records that both sides agreed on, and its plan
/// leaves the content of some live row neither live nor archived.
#[tactic(auto, unfolding(crate::specs::PlannedLosses::loss_planned))]
pub fn first_loss<D: Folder>(
    desk: &Desk<D>,
    handheld: &UserInfo,
    planned: &[Planned],
) -> Option<DbName>
    ensures { result ≡ planned_losses.loss_planned handheld.now (marks_in desk.now)
        (parted_in desk.now) (shelves_in desk.now) planned.now }
{
    match first_in(desk, handheld, planned) {
        Some(one) => Some(one.job.name.copy()),
        None => None,
    }
}
