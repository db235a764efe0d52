// Resources of a database, by type and id, and what becomes of them.
ghost use Rattle.std.specs.Prelude.{◌≡◌, ◌<◌, ◌≤◌, ◌++◌, ◌∷◌, ◌↔◌, [], None, IfOk, IfSome, IsTrue, OnErr, OnOk, is_some, length, remove, true};
ghost use Rattle.pdb_values.specs.Heads.{holds_resources};
ghost use Rattle.palm_device.specs.Edits.{Tells};
ghost use Rattle.palm_device.specs.Resources as resources;
ghost use Rattle.palm_device.specs.Resources.{with_resources};

use pdb_values::{Bytes, Database, FourCc, Resource};
use std::alloc::AllocError;

// Whether a resource has this type and id.
fn is_resource(resource: &Resource, kind: FourCc, id: u16) -> bool
    ensures { result ≡ resources.is_resource kind.0 id resource.now }
{
    resource.kind.0 == kind.0 && resource.id == id
}

/// Where the first resource of a type and id stands.
pub fn place_of_resource(items: &[Resource], kind: FourCc, id: u16) -> Option<usize>
    ensures place { result ≡ resources.place_of_resource kind.0 id items.now }
    ensures within { IfSome result (λ place. place < length items.now) }
{
    items
        .iter()
        .position(|resource| is_resource(resource, kind, id))
}

// Whether a resource of this type, id and bytes is the first of its type and id.
fn is_there(items: &[Resource], kind: FourCc, id: u16, bytes: &Bytes) -> bool
    ensures { IsTrue result ↔ (resources.put_resource kind.0 id bytes.now items.now ≡ items.now) }
{
    match place_of_resource(items, kind, id) {
        Some(place) => items[place].bytes.as_slice() == bytes.as_slice(),
        None => false,
    }
}

/// Gives the first resource of a type and id other bytes, or puts a new last one, where there is room. Answers whether that
/// makes another database.
#[tactic(auto, using(crate::proofs::TellingLaws::tells_resources))]
pub fn put_resource(
    database: &mut Database,
    kind: FourCc,
    id: u16,
    bytes: Bytes,
) -> Result<bool, AllocError>
    requires resources { holds_resources database.old.head.attributes ≡ true }
    requires room { resources.place_of_resource kind.0 id database.old.resources ≡ None
        → length database.old.resources < 65535 }
    requires short { length bytes ≤ 65500 }
    ensures put { OnOk result (database.new
        ≡ with_resources (resources.put_resource kind.0 id bytes database.old.resources)
        database.old) }
    ensures differs { IfOk result (Tells database.old
        (with_resources (resources.put_resource kind.0 id bytes database.old.resources)
        database.old)) }
    ensures stays { OnErr result (database.new ≡ database.old) }
{
    let same = is_there(database.resources(), kind, id, &bytes);
    put_in(database, kind, id, bytes)?;
    Ok(!same)
}

// Gives the first resource of a type and id other bytes, or puts a new last one.
#[tactic(auto, using(crate::proofs::ResourceLaws::put_resource_at, crate::proofs::ResourceLaws::put_resource_new))]
fn put_in(database: &mut Database, kind: FourCc, id: u16, bytes: Bytes) -> Result<(), AllocError>
    requires resources { holds_resources database.old.head.attributes ≡ true }
    requires room { resources.place_of_resource kind.0 id database.old.resources ≡ None
        → length database.old.resources < 65535 }
    requires short { length bytes ≤ 65500 }
    ensures put { OnOk result (database.new
        ≡ with_resources (resources.put_resource kind.0 id bytes database.old.resources)
        database.old) }
    ensures stays { OnErr result (database.new ≡ database.old) }
{
    let Some(place) = place_of_resource(database.resources(), kind, id) else {
        return push_resource(database, kind, id, bytes);
    };
    database.set_resource(place, bytes);
    Ok(())
}

// Puts a new last resource.
fn push_resource(
    database: &mut Database,
    kind: FourCc,
    id: u16,
    bytes: Bytes,
) -> Result<(), AllocError>
    requires resources { holds_resources database.old.head.attributes ≡ true }
    requires room { length database.old.resources < 65535 }
    requires short { length bytes ≤ 65500 }
    ensures pushed { OnOk result (database.new
        ≡ with_resources (database.old.resources ++ resources.new_resource kind.0 id bytes ∷ [])
        database.old) }
    ensures stays { OnErr result (database.new ≡ database.old) }
{
    match database.push_resource(Resource { kind, id, bytes }) {
        Ok(()) => Ok(()),
        Err(_) => Err(AllocError),
    }
}

/// Takes out the first resource of a type and id. Answers whether there was one, which makes another database.
#[tactic(auto, using(crate::proofs::ResourceLaws::without_resource_at, crate::proofs::ResourceLaws::without_resource_none, crate::proofs::TellingLaws::tells_purge_resource))]
pub fn purge_resource(database: &mut Database, kind: FourCc, id: u16) -> bool
    ensures purged { database.new ≡ with_resources
        (resources.without_resource kind.0 id database.old.resources) database.old }
    ensures found { result ≡ is_some (resources.place_of_resource kind.0 id
        database.old.resources) }
    ensures differs { Tells database.old (with_resources
        (resources.without_resource kind.0 id database.old.resources) database.old) result }
{
    let Some(place) = place_of_resource(database.resources(), kind, id) else {
        return false;
    };
    take_out(database, place);
    true
}

// Takes the resource at a place out.
fn take_out(database: &mut Database, place: usize)
    requires { place < length database.old.resources }
    ensures { database.new ≡ with_resources (remove database.old.resources place) database.old }
{
    let _taken = database.remove_resource(place);
}

/// Takes out all resources. Answers whether that makes another database.
#[tactic(auto, using(crate::proofs::TellingLaws::tells_no_resources))]
pub fn clear_resources(database: &mut Database) -> bool
    ensures cleared { database.new ≡ with_resources [] database.old }
    ensures differs { Tells database.old (with_resources [] database.old) result }
{
    let none = database.resources().is_empty();
    take_all_out(database);
    !none
}

// Takes out all resources, the last one first.
fn take_all_out(database: &mut Database)
    ensures { database.new ≡ with_resources [] database.old }
{
    while !database.resources().is_empty() {
        let last = database.resources().len() - 1;
        take_out(database, last);
    }
}
