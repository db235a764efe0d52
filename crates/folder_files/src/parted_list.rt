// The databases of a slot that took no part in its last session.
ghost use Rattle.std.specs.Prelude.{◌≡◌, ◌<◌, ◌≤◌, IfOk, IsTrue, OnErr, OnOk, bytes_eq, false, length, slice_get};
ghost use Rattle.std.specs.Option.{option_map_or};
ghost use Rattle.folder_files.specs.Partings as partings;
ghost use Rattle.folder_files.specs.Partings.{StemsRise, with_one};

use crate::parted::{Parted, Parting};
use crate::stem::stem_before;
use pdb_values::DbName;
use std::alloc::{AllocError, Global};

// Whether a database has this name.
fn is_named(one: &Parted, name: &DbName) -> bool
    ensures { result ≡ bytes_eq one.now.name name.now }
{
    one.name.as_bytes() == name.as_bytes()
}

/// What is kept of the database of a name.
pub fn parting_of(parted: &[Parted], name: &DbName) -> Option<Parting>
    ensures { result ≡ partings.parting_of name.now parted.now }
{
    match parted.iter().find(|one| is_named(one, name)) {
        Some(one) => Some(one.how),
        None => None,
    }
}

// How many of these databases have stems before that of a name.
fn place_among(alloc: Global, parted: &[Parted], name: &DbName) -> Result<usize, AllocError>
    ensures place { IfOk result (λ place. place ≡ partings.place_among name.now parted.now) }
    ensures within { IfOk result (λ place. place ≤ length parted.now) }
{
    for (place, one) in parted.iter().enumerate() {
        if !stem_before(alloc, &one.name, name)? {
            return Ok(place);
        }
    }
    Ok(parted.len())
}

// Whether the database at a place has this name.
fn is_at(parted: &[Parted], place: usize, name: &DbName) -> bool
    ensures there { result ≡ option_map_or (λ one. bytes_eq one.name name.now)
        (slice_get parted.now place) false }
    ensures within { IsTrue result → place < length parted.now }
{
    match parted.get(place) {
        Some(one) => is_named(one, name),
        None => false,
    }
}

/// Puts a database among others whose stems rise in byte order, instead of the one of its name, if there is one.
pub fn put_parted(alloc: Global, parted: &mut Vec<Parted>, one: Parted) -> Result<(), AllocError>
    ensures put { OnOk result (parted.new.items ≡ with_one one parted.old.items) }
    ensures rise { StemsRise parted.old.items → StemsRise parted.new.items }
    ensures stays { OnErr result (parted.new.items ≡ parted.old.items) }
{
    let place = place_among(alloc, parted, &one.name)?;
    if is_at(parted, place, &one.name) {
        parted[place] = one;
        return Ok(());
    }
    match parted.insert(place, one) {
        Ok(()) => Ok(()),
        Err(_) => Err(AllocError),
    }
}

/// The same databases once more.
pub fn same_parted(alloc: Global, parted: &[Parted]) -> Result<Vec<Parted>, AllocError>
    ensures { IfOk result (λ same. same.items ≡ parted.now) }
{
    let mut same = Vec::new(alloc);
    for one in parted {
        same.push(one.copy())?;
    }
    Ok(same)
}
