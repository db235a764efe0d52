// The ids of records, kept beside them so that a record is found by its id without a walk.
ghost use Rattle.std.specs.Prelude.{◌≡◌, ◌<◌, ◌++◌, ◌∷◌, [], IfSome, List, length, true};
ghost use Rattle.pdb_values.specs.declared.record.Record.{Record as Item};
ghost use Rattle.palm_device.specs.Records as records;
ghost use Rattle.palm_device.specs.Soundness.{ids_of};
ghost use Rattle.database_merge.specs.Places.{HasPlaces};

use indexmap::IndexSet;
use palm_device::place_of_id;
use pdb_values::Record;
use std::alloc::Global;

/// The ids of some records in their order, or none, where two are alike or memory did not serve: then a record is looked
/// for by a walk.
#[derive(Drop)]
pub(crate) struct Places {
    ids: Option<IndexSet<u32>>,
}

impl Places {
    /// Those of these records.
    pub(crate) fn of(alloc: Global, items: &[Record]) -> Places
        ensures { HasPlaces items.now result }
    {
        Places {
            ids: ids_in(alloc, items),
        }
    }

    /// Where the record of an id stands among those whose places these are.
    #[tactic(auto, using(crate::proofs::PlaceLaws::place_kept, crate::proofs::PlaceLaws::place_within))]
    pub(crate) fn place(&self, items: &[Record], id: u32) -> Option<usize>
        requires { HasPlaces items.now self.now }
        ensures place { result ≡ records.place_of_id id items.now }
        ensures within { IfSome result (λ place. place < length items.now) }
    {
        match &self.ids {
            Some(ids) => ids.get_index_of(&id),
            None => place_of_id(items, id),
        }
    }

    /// Notes a record of this id behind the others.
    #[tactic(auto, using(crate::proofs::PlaceLaws::one_more_place))]
    pub(crate) fn add(&mut self, id: u32)
        ensures { (items : List Item) (item : Item) → item.id ≡ id
            → HasPlaces items self.old → HasPlaces (items ++ item ∷ []) self.new }
    {
        self.ids = match self.ids.take() {
            Some(ids) => with_id(ids, id),
            None => None,
        };
    }
}

// The ids of records in their order, where they differ and memory serves.
#[tactic(auto, using(handheld_store::proofs::IndexLaws::ids_more))]
fn ids_in(alloc: Global, items: &[Record]) -> Option<IndexSet<u32>>
    ensures { IfSome result (λ ids. ids.keys ≡ ids_of items.now) }
{
    let Ok(mut ids) = IndexSet::with_capacity(alloc, items.len()) else {
        return None;
    };
    for place in 0..items.len() {
        if !insert_id(&mut ids, items[place].id.number()) {
            return None;
        }
    }
    Some(ids)
}

// The ids with one more behind the others, where it is new and memory serves.
fn with_id(mut ids: IndexSet<u32>, id: u32) -> Option<IndexSet<u32>>
    ensures { IfSome result (λ more. more.keys ≡ ids.keys ++ id ∷ []) }
{
    if insert_id(&mut ids, id) {
        Some(ids)
    } else {
        None
    }
}

// Puts an id behind the others. The answer is whether it is new and memory serves.
fn insert_id(ids: &mut IndexSet<u32>, id: u32) -> bool
    ensures { result ≡ true → ids.new.keys ≡ ids.old.keys ++ id ∷ [] }
{
    matches!(ids.insert(id), Ok(true))
}
