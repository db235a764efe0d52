// The names of a session's databases, in byte order.
ghost use Rattle.std.specs.Prelude.{◌≡◌, ◌≤◌, ◌<◌, IfSome, OnErr, OnOk, length, position};
ghost use Rattle.std.specs.Str.{bytes_eq};
ghost use Rattle.std.specs.List.{list_any, position_or_len};
ghost use Rattle.pdb_values.specs.NamedDatabases.{comes_before};
ghost use Rattle.session_plan.specs.Tasks as tasks;

use pdb_values::DbName;
use std::alloc::AllocError;
use std::cmp::Ordering;

// Whether a name stands among others.
fn is_there(names: &[DbName], name: &DbName) -> bool
    ensures { result ≡ list_any (λ other. bytes_eq other name.now) names.now }
{
    names
        .iter()
        .any(|other| other.as_bytes() == name.as_bytes())
}

// Whether a name stands before another in byte order.
fn is_before(name: &DbName, other: &DbName) -> bool
    ensures { result ≡ comes_before name.now other.now }
{
    match name.as_bytes().cmp(other.as_bytes()) {
        Ordering::Less => true,
        _ => false,
    }
}

// Where the first greater name stands.
fn first_greater(names: &[DbName], name: &DbName) -> Option<usize>
    ensures place { result ≡ position (λ other. comes_before name.now other) names.now }
    ensures within { IfSome result (λ place. place < length names.now) }
{
    names.iter().position(|other| is_before(name, other))
}

// Where a new name goes: in front of the first greater one, or behind all.
#[tactic(auto, using(pdb_values::proofs::PlaceLaws::place_found, pdb_values::proofs::PlaceLaws::place_past))]
fn place_for(names: &[DbName], name: &DbName) -> usize
    ensures place { result ≡ position_or_len (λ other. comes_before name.now other) names.now }
    ensures within { result ≤ length names.now }
{
    match first_greater(names, name) {
        Some(place) => place,
        None => names.len(),
    }
}

/// Puts a name at its place in byte order, unless it is there.
pub fn put_name(names: &mut Vec<DbName>, name: DbName) -> Result<(), AllocError>
    ensures put { OnOk result (names.new.items ≡ tasks.with_name name names.old.items) }
    ensures stays { OnErr result (names.new.items ≡ names.old.items) }
{
    if is_there(names, &name) {
        return Ok(());
    }
    let place = place_for(names, &name);
    match names.insert(place, name) {
        Ok(()) => Ok(()),
        Err(_) => Err(AllocError),
    }
}
