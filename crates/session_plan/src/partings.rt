// On which databases both sides agree, and what the slot keeps of those that took no part.
ghost use Rattle.std.specs.Prelude.{◌≡◌, IfOk, OnOk};
ghost use Rattle.desk_store.specs.Views.{parted_in, picked_slot, shelves_in};
ghost use Rattle.folder_files.specs.Partings.{PartedRise};
ghost use Rattle.session_plan.specs.Partings as partings;
ghost use Rattle.session_plan.specs.Takes as takes;

use crate::planned::Planned;
use crate::strangers::is_stranger_to;
use desk_store::Desk;
use folder_files::{Parted, Parting, put_parted};
use hs_folders::Folder;
use pdb_values::{Database, DbName, UserInfo};
use session_parts::Skip;
use std::alloc::{AllocError, Global};

// The most databases that a slot keeps.
const MOST: usize = 2 * Database::MOST;

// Whether both sides agree on the database of a name, where their marks do or don't.
pub(crate) fn agrees_with<D: Folder>(desk: &Desk<D>, agree: bool, name: &DbName) -> bool
    ensures { result ≡ partings.agrees_with agree (parted_in desk.now) name.now }
{
    agree && desk.parting(name).is_none()
}

// Whether a database was missing when it took no part, or its handheld a stranger.
pub(crate) fn is_unmet(before: Option<Parting>) -> bool
    ensures { result ≡ partings.is_unmet before }
{
    match before {
        Some(Parting::Unmet) => true,
        Some(Parting::Apart) | None => false,
    }
}

// What the slot keeps of a database that took no part.
fn parting(stranger: bool, before: Option<Parting>, why: Skip) -> Parting
    ensures { result ≡ partings.parting stranger before why }
{
    if stranger || is_unmet(before) || matches!(why, Skip::Missing) {
        Parting::Unmet
    } else {
        Parting::Apart
    }
}

// What the slot keeps of a database once a session has ended: nothing where it took part, or where there are no base rows of it.
fn parting_by(
    stranger: bool,
    based: bool,
    before: Option<Parting>,
    skip: Option<Skip>,
) -> Option<Parting>
    ensures { result ≡ partings.parting_by stranger based before skip }
{
    match skip {
        Some(why) if based => Some(parting(stranger, before, why)),
        _ => None,
    }
}

// What it keeps of a planned database.
fn parting_of<D: Folder>(desk: &Desk<D>, stranger: bool, one: &Planned) -> Option<Parting>
    ensures { result ≡ partings.parting_planned stranger (shelves_in desk.now) (parted_in desk.now) one.now }
{
    let name = &one.job.name;
    let based = desk.base(name).is_some();
    parting_by(stranger, based, desk.parting(name), one.job.skip)
}

// Puts what is kept of a database among the others, if anything is, and there is room for it.
fn put_parting(
    alloc: Global,
    parted: &mut Vec<Parted>,
    name: &DbName,
    how: Option<Parting>,
) -> Result<(), AllocError>
    ensures put { OnOk result (parted.new.items
        ≡ partings.with_parting name.now how parted.old.items) }
    ensures rise { OnOk result (PartedRise parted.old.items → PartedRise parted.new.items) }
{
    match how {
        Some(how) if parted.len() < MOST => put_parted(
            alloc,
            parted,
            Parted {
                name: name.copy(),
                how,
            },
        ),
        _ => Ok(()),
    }
}

// What the slot keeps of these databases.
fn parted_of<D: Folder>(
    alloc: Global,
    desk: &Desk<D>,
    stranger: bool,
    planned: &[Planned],
) -> Result<Vec<Parted>, AllocError>
    ensures kept { IfOk result (λ parted. parted.items
        ≡ partings.parted_planned stranger (shelves_in desk.now) (parted_in desk.now) planned.now) }
    ensures rise { IfOk result (λ parted. PartedRise parted.items) }
{
    match planned {
        [] => Ok(Vec::new(alloc)),
        [one, later @ ..] => {
            let mut parted = parted_of(alloc, desk, stranger, later)?;
            let how = parting_of(desk, stranger, one);
            put_parting(alloc, &mut parted, &one.job.name, how)?;
            Ok(parted)
        }
    }
}

/// What the slot keeps of the databases that took no part in a session with this user, once it has ended.
pub(crate) fn parted_after<D: Folder>(
    alloc: Global,
    desk: &Desk<D>,
    user: &UserInfo,
    planned: &[Planned],
) -> Result<Vec<Parted>, AllocError>
    ensures kept { IfOk result (λ parted. parted.items
        ≡ takes.parted_after user.now (picked_slot desk.now) planned.now) }
    ensures rise { IfOk result (λ parted. PartedRise parted.items) }
{
    parted_of(alloc, desk, is_stranger_to(user, desk.marks()), planned)
}
