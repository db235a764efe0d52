// The ids that records get where a store is opened, found in one pass over them.
ghost use Rattle.std.specs.Prelude.{◌≡◌, ◌≤◌, ◌<◌, ◌||◌, ◌&&◌, ◌==◌, ℕ, IfOk, OnOk, false, length, not, true, vec_len};
ghost use Rattle.std.specs.BTreeSet.{contains};
ghost use Rattle.std.specs.Ordering.{nat_cmp};
ghost use Rattle.palm_device.specs.FreshIds.{fresh_ids as ids_given_to, is_among};

use pdb_values::RecordId;
use std::alloc::{AllocError, Global};
use std::collections::BTreeSet;

/// The ids that records get in place of these: each keeps its own where it isn't 0 and no earlier
/// one is the same, and the others get the least ones from 1 that are left, in their order.
pub fn fresh_ids(alloc: Global, ids: &[RecordId]) -> Result<Vec<RecordId>, AllocError>
    requires { length ids.now ≤ 65535 }
    ensures fresh { IfOk result (λ fresh. fresh.items ≡ ids_given_to ids.now) }
    ensures as_many { IfOk result (λ fresh. vec_len fresh ≡ length ids.now) }
{
    let numbers = numbers_of(alloc, ids)?;
    let mut seen = BTreeSet::new(alloc);
    let mut fresh = Vec::new(alloc);
    let mut next = 1;
    for place in 0..ids.len() {
        let id = ids[place];
        if is_own(&mut seen, id.number())? {
            fresh.push(id)?;
        } else {
            let free = first_free(&numbers, next);
            fresh.push(id_of(free))?;
            next = free + 1;
        }
    }
    Ok(fresh)
}

// The numbers of ids.
fn numbers_of(alloc: Global, ids: &[RecordId]) -> Result<BTreeSet<u32, Global>, AllocError>
    ensures { IfOk result (λ numbers. (x : ℕ) → contains nat_cmp numbers x ≡ is_among x ids.now) }
{
    let mut numbers = BTreeSet::new(alloc);
    for place in 0..ids.len() {
        let _new = numbers.insert(ids[place].number())?;
    }
    Ok(numbers)
}

// Whether a number is neither 0 nor one that was seen. It is from now on.
fn is_own(seen: &mut BTreeSet<u32, Global>, number: u32) -> Result<bool, AllocError>
    ensures own { IfOk result (λ own.
        own ≡ (not (number == 0) && not (contains nat_cmp seen.old number))) }
    ensures seen { OnOk result ((x : ℕ) →
        contains nat_cmp seen.new x ≡ ((number == x) || contains nat_cmp seen.old x)) }
{
    let new = seen.insert(number)?;
    Ok(number != 0 && new)
}

// The first number from `next` on that is none of these.
fn first_free(numbers: &BTreeSet<u32, Global>, next: u32) -> u32
    requires { (k : ℕ) × ((next ≤ k) × (k ≤ 16777215) × (contains nat_cmp numbers.now k ≡ false)) }
    ensures from { next ≤ result }
    ensures bound { result ≤ 16777215 }
    ensures free { contains nat_cmp numbers.now result ≡ false }
    ensures first { (k : ℕ) → next ≤ k → k < result → contains nat_cmp numbers.now k ≡ true }
{
    for number in next..16_777_216 {
        if !numbers.contains(&number) {
            return number;
        }
    }
    unreachable!()
}

// The id of a number.
fn id_of(number: u32) -> RecordId
    requires { number ≤ 16777215 }
    ensures { result ≡ number }
{
    RecordId::new(number).unwrap()
}
