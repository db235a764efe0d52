// The rows of a base by their ids.
ghost use Rattle.std.specs.Prelude.{◌≡◌, ◌==◌, ℕ, IfOk, OnOk, false};
ghost use Rattle.std.specs.BTreeMap.{get};
ghost use Rattle.std.specs.Option.{option_copied};
ghost use Rattle.std.specs.Ordering.{nat_cmp};
ghost use Rattle.palm_device.specs.Records.{place_of_id};
ghost use Rattle.conduit_rules.specs.States.{base_at};
ghost use Rattle.mirrors.specs.Places.{or_place, row_content};

use pdb_values::{Content, Record, RecordId};
use std::alloc::{AllocError, Global};
use std::collections::BTreeMap;

// Where the first record of each id stands.
pub(crate) fn places_of(
    alloc: Global,
    base: &[Record],
) -> Result<BTreeMap<u32, usize, Global>, AllocError>
    ensures { IfOk result (λ places. (id : ℕ) → get nat_cmp places id ≡ place_of_id id base.now) }
{
    let mut places = BTreeMap::new(alloc);
    for place in 0..base.len() {
        note(&mut places, base[place].id.number(), place)?;
    }
    Ok(places)
}

// Notes the place of an id that has none yet.
fn note(places: &mut BTreeMap<u32, usize, Global>, id: u32, place: usize) -> Result<(), AllocError>
    ensures { OnOk result ((other : ℕ) → get nat_cmp places.new other
        ≡ or_place (get nat_cmp places.old other) (id == other) place) }
{
    if !places.contains_key(&id) {
        let _none = places.insert(id, place)?;
    }
    Ok(())
}

// The content of the base row of an id; none of a gone row.
pub(crate) fn row_of<'a>(
    base: &'a [Record],
    places: &BTreeMap<u32, usize, Global>,
    id: RecordId,
) -> Option<&'a Content>
    requires { (other : ℕ) → get nat_cmp places.now other ≡ place_of_id other base.now }
    ensures { option_copied result ≡ row_content (base_at base.now false id) }
{
    if id.number() == 0 {
        return None;
    }
    let place = *places.get(&id.number())?;
    let item = &base[place];
    if item.deleted {
        return None;
    }
    Some(&item.content)
}
