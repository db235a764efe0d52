// Whether a limit is passed.
ghost use Rattle.std.specs.Prelude.{◌≡◌, ◌+◌, ◌-◌, ◌^◌, ◌<◌, ◌++◌, [], IfOk, IfSome, if◌then◌else◌, is_none, length, min, nat_lt, not, position};
ghost use Rattle.pdb_values.specs.NamedDatabases.{database_of};
ghost use Rattle.conduit_rules.specs.declared.view.Seen.{Seen as Entry};
ghost use Rattle.record_merge.specs.Merging.{one_copy_behind};
ghost use Rattle.desk_store.specs.Desks.{all_rows};
ghost use Rattle.desk_store.specs.Views.{shelves_in};
ghost use Rattle.session_plan.specs.Archives.{entries_of};
ghost use Rattle.session_plan.specs.Limits.{with_one as with_one_more};
ghost use Rattle.session_plan.specs.PlannedLimits as planned_limits;
ghost use Rattle.session_plan.specs.Sizes as limits;
ghost use Rattle.session_plan.specs.Tasks.{records_of};

use crate::archive::merged_archive;
use crate::planned::Planned;
use crate::sizes::Sizes;
use conduit_rules::Seen;
use desk_store::Desk;
use hs_folders::Folder;
use pdb_values::{Content, Database, DbHead, DbName, Record, RecordId};
use std::alloc::{AllocError, Global};

/// Whether a database would be the 201st of a side, or would have more than 65,535 entries of a sort.
pub fn is_over(sizes: &Sizes) -> bool
    ensures { result ≡ limits.is_over sizes.now }
{
    sizes.handhelds > Database::MOST
        || sizes.desktops > Database::MOST
        || sizes.records > Database::GREATEST_COUNT
        || sizes.rows > Database::GREATEST_COUNT
        || sizes.base > Database::GREATEST_COUNT
        || sizes.archive > Database::GREATEST_COUNT
}

// Whether the id of an entry is below another one.
fn is_below(seen: &Seen, id: RecordId) -> bool
    ensures { result ≡ nat_lt seen.now.id id }
{
    seen.id.number() < id.number()
}

// Where the first entry stands whose id is not below.
fn first_from(view: &[Seen], id: RecordId) -> Option<usize>
    ensures place { result ≡ position (λ (seen : Entry). not (nat_lt seen.id id)) view.now }
    ensures within { IfSome result (λ place. place < length view.now) }
{
    view.iter().position(|seen| !is_below(seen, id))
}

// The entries from that one on.
#[tactic(auto, using(crate::proofs::LimitLaws::from_found, crate::proofs::LimitLaws::from_none))]
fn entries_from(view: &[Seen], id: RecordId) -> &[Seen]
    ensures { result.now ≡ planned_limits.entries_from id view.now }
{
    match first_from(view, id) {
        Some(place) => &view[place..],
        None => &[],
    }
}

// Whether the first entry has an id.
fn begins_with(view: &[Seen], id: RecordId) -> bool
    ensures { result ≡ planned_limits.begins_with id view.now }
{
    match view.first() {
        Some(seen) => seen.id == id,
        None => false,
    }
}

// How many of these rows have an id that no entry has. Both are read forwards, in rising ids.
fn unseen_count(view: &[Seen], rows: &[(RecordId, Content)]) -> usize
    ensures { result ≡ planned_limits.unseen_count view.now rows.now }
{
    let mut count = 0;
    let mut ahead = view;
    for row in rows {
        ahead = entries_from(ahead, row.0);
        if !begins_with(ahead, row.0) {
            count += 1;
        }
    }
    count
}

// The entries of the archive of a name; none where there is none.
pub(crate) fn archived<'d, D: Folder>(desk: &'d Desk<D>, name: &DbName) -> &'d [Record]
    ensures { result.now ≡ records_of (database_of name.now (shelves_in desk.now).archives) }
{
    match desk.archive(name) {
        Some(archive) => archive.records(),
        None => &[],
    }
}

// How many entries an archive has once it gets new ones, one copy of each.
pub(crate) fn archive_count(
    alloc: Global,
    old: &[Record],
    new: &[(RecordId, Content)],
) -> Result<usize, AllocError>
    ensures { IfOk result (λ count. count
        ≡ length (one_copy_behind [] (entries_of old.now ++ new.now))) }
{
    Ok(merged_archive(alloc, old, new)?.len())
}

// How many databases a side has with this one.
fn with_one(head: &Option<DbHead>, count: usize) -> usize
    ensures { result ≡ min (with_one_more head.now count) (2 ^ 64 - 1) }
{
    match head {
        Some(_) => count,
        None => count.saturating_add(1),
    }
}

// The same, where this one is new there; else 0.
fn with_new(head: &Option<DbHead>, count: usize) -> usize
    ensures { result ≡ min (if is_none head.now then count + 1 else 0) (2 ^ 64 - 1) }
{
    match head {
        Some(_) => 0,
        None => count.saturating_add(1),
    }
}

// Whether a planned database would pass a limit, where both sides have so many with those that came before.
fn passes_limit<D: Folder>(
    alloc: Global,
    desk: &Desk<D>,
    handhelds: usize,
    desktops: usize,
    one: &Planned,
) -> Result<bool, AllocError>
    ensures { IfOk result (λ over. over ≡ limits.is_over
        (planned_limits.sizes_planned (shelves_in desk.now) handhelds desktops one.now)) }
{
    let plan = &one.plan;
    let new = unseen_count(&one.view.seen, &plan.kept);
    let rows = plan.kept.len().saturating_add(plan.adds.len());
    let sizes = Sizes {
        handhelds: with_new(&one.job.handheld, handhelds),
        desktops: with_new(&one.job.rows, desktops),
        records: one
            .view
            .seen
            .len()
            .saturating_add(plan.adds.len().saturating_add(new)),
        rows,
        base: rows.saturating_add(plan.gone.len()),
        archive: archive_count(alloc, archived(desk, &one.job.name), &plan.archive)?,
    };
    Ok(is_over(&sizes))
}

// How many databases the desktop has, in all its slots.
fn desktop_count<D: Folder>(desk: &Desk<D>) -> usize
    ensures { result ≡ min (all_rows desk.now.slots) (2 ^ 64 - 1) }
{
    desk.all_len()
}

// Whether a planned database is not skipped.
fn is_active(one: &Planned) -> bool
    ensures { result ≡ is_none one.now.job.skip }
{
    one.job.skip.is_none()
}

/// The name of the first planned database that would pass a limit of a side, with those that come before it: the 201st of the handheld
/// or of all slots of the desktop, or one of more than 65,535 records on the handheld, rows, base rows or entries of the archive. One
/// that is skipped does not count. `listed` is how many databases the handheld listed.
pub fn first_over<D: Folder>(
    alloc: Global,
    desk: &Desk<D>,
    listed: usize,
    planned: &[Planned],
) -> Result<Option<DbName>, AllocError>
    ensures { IfOk result (λ over. over ≡ planned_limits.over_planned (shelves_in desk.now)
        listed (all_rows desk.now.slots) planned.now) }
{
    let mut handhelds = listed;
    let mut desktops = desktop_count(desk);
    for one in planned {
        if is_active(one) {
            if passes_limit(alloc, desk, handhelds, desktops, one)? {
                return Ok(Some(one.job.name.copy()));
            }
            handhelds = with_one(&one.job.handheld, handhelds);
            desktops = with_one(&one.job.rows, desktops);
        }
    }
    Ok(None)
}

// The name of the 201st planned database that is not skipped, if there are so many. No handheld has them, so one that lists more than it
// can have is told of.
fn past_most(planned: &[Planned]) -> Option<DbName>
    ensures { result ≡ planned_limits.past_most planned.now }
{
    let mut room = Database::MOST;
    for one in planned {
        if is_active(one) {
            if room == 0 {
                return Some(one.job.name.copy());
            }
            room -= 1;
        }
    }
    None
}

/// The name of the first planned database that would pass a limit of a side, or of the 201st that is not skipped. At a meeting of a handheld
/// with a desktop that is the first one's.
pub fn first_limit<D: Folder>(
    alloc: Global,
    desk: &Desk<D>,
    listed: usize,
    planned: &[Planned],
) -> Result<Option<DbName>, AllocError>
    ensures { IfOk result (λ name. name ≡ planned_limits.limit_planned (shelves_in desk.now)
        listed (all_rows desk.now.slots) planned.now) }
{
    match first_over(alloc, desk, listed, planned)? {
        Some(name) => Ok(Some(name)),
        None => Ok(past_most(planned)),
    }
}
