// The number that a user gets.
ghost use Rattle.std.specs.Prelude.{◌≡◌, ◌≢◌, ◌≤◌, ◌<◌, ◌∷◌, ◌+◌, ◌^◌, ◌==◌, false, length};
ghost use Rattle.std.specs.List.{list_any};
ghost use Rattle.desktop_session.specs.Seats.{numbers_of};
ghost use Rattle.session_plan.specs.Numbers as numbers;

use pdb_values::{Marks, PalmDate, UserName};

// The bound of a seed.
const SEEDS: u64 = 0x8000_0000;

// A number goes into a seed.
fn mix(seed: u32, number: u32) -> u32
    ensures mixed { result ≡ numbers.mix seed number }
    ensures bound { result < 2 ^ 31 }
{
    ((u64::from(seed) * 16_777_619 + u64::from(number)) % SEEDS) as u32
}

// The number to begin with.
fn first_number(date: PalmDate, name: &UserName, old: u32) -> u32
    ensures first { result ≡ numbers.first_number date name.now old }
    ensures bound { result ≤ 2 ^ 31 }
{
    let mut seed = mix(mix(0, date.seconds()), old);
    for byte in name.as_bytes() {
        seed = mix(seed, u32::from(*byte));
    }
    1 + seed
}

// Whether a slot has a number.
fn has_number(marks: &[Marks], number: u32) -> bool
    ensures { result ≡ list_any (λ slot. slot.user == number) marks.now }
{
    marks.iter().any(|slot| slot.user == number)
}

// Whether a slot or the handheld has a number.
fn is_taken(marks: &[Marks], user: u32, number: u32) -> bool
    ensures { result ≡ numbers.is_taken (user ∷ numbers_of marks.now) number }
{
    user == number || has_number(marks, number)
}

// The first number from this one on that nobody has.
fn free_from(marks: &[Marks], user: u32, first: u32) -> u32
    requires { first ≤ 2 ^ 31 }
    ensures { result ≡ numbers.free_from 17 first (user ∷ numbers_of marks.now) }
{
    let mut number = first;
    for tried in 0..17 {
        let _tried: u32 = tried;
        if !is_taken(marks, user, number) {
            return number;
        }
        number += 1;
    }
    number
}

/// A new number for a user of this name, at a session of this date of a slot that had this number: none that a slot has, not the
/// handheld's, and not 0.
#[tactic(auto, using(crate::proofs::NumberLaws::number_is_some))]
pub fn new_number(date: PalmDate, name: &UserName, old: u32, marks: &[Marks], user: u32) -> u32
    requires { length marks.now ≤ 16 }
    ensures number { result ≡ numbers.new_number date name.now old
        (user ∷ numbers_of marks.now) }
    ensures free { numbers.is_taken (user ∷ numbers_of marks.now) result ≡ false }
    ensures some { result ≢ 0 }
{
    free_from(marks, user, first_number(date, name, old))
}
