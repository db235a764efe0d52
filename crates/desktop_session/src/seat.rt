// The slot that a handheld gets.
ghost use Rattle.std.specs.Prelude.{◌≡◌, ◌≤◌, ◌<◌, IfSome, length, position};
ghost use Rattle.desktop_session.specs.Seats as seats;
ghost use Rattle.pdb_values.specs.Slots.{IsWithin, newcomer as newcomer_in};

use pdb_values::{Marks, PalmDate, Slot, UserInfo, UserName};

/// What is asked of the user of a handheld.
#[derive(Drop)]
pub struct UserWish {
    /// The name that the user is to have. An empty one is none.
    pub name: UserName,
    /// Whether a user that the desktop does not know may get a slot.
    pub add: bool,
}

impl UserWish {
    /// Nothing is asked.
    pub fn none() -> UserWish
        ensures { result ≡ seats.no_wish }
    {
        UserWish {
            name: UserName::new(&[]).unwrap(),
            add: false,
        }
    }
}

/// The marks of a slot that waits for its first user, whoever that is.
pub fn unclaimed() -> Marks
    ensures { result ≡ seats.unclaimed }
{
    Marks {
        pc: 0,
        user: 0,
        last: PalmDate::of_seconds(0),
        name: UserName::new(&[]).unwrap(),
    }
}

// Whether two names are the same.
fn is_same(name: &UserName, other: &UserName) -> bool
    ensures { result ≡ seats.is_same name.now other.now }
{
    name.as_bytes() == other.as_bytes()
}

// Whether a name is none.
fn is_empty(name: &UserName) -> bool
    ensures { result ≡ seats.is_empty name.now }
{
    name.as_bytes().is_empty()
}

// Whether a slot has a number and this name.
fn has_name(slot: &Marks, name: &UserName) -> bool
    ensures { result ≡ seats.has_name name.now slot.now }
{
    slot.user != 0 && is_same(&slot.name, name)
}

// The first slot that has a number and this name.
fn first_named(marks: &[Marks], name: &UserName) -> Option<usize>
    ensures place { result ≡ position (seats.has_name name.now) marks.now }
    ensures within { IfSome result (λ place. place < length marks.now) }
{
    marks.iter().position(|slot| has_name(slot, name))
}

// The first slot of a name, if it is one.
fn place_named(marks: &[Marks], name: &UserName) -> Option<usize>
    ensures place { result ≡ seats.place_named marks.now name.now }
    ensures within { IfSome result (λ place. place < length marks.now) }
{
    if is_empty(name) {
        None
    } else {
        first_named(marks, name)
    }
}

// The slot of a number.
fn place_numbered(marks: &[Marks], user: u32) -> Option<usize>
    ensures place { result ≡ seats.place_numbered marks.now user }
    ensures within { IfSome result (λ place. place < length marks.now) }
{
    marks.iter().position(|slot| slot.user == user)
}

// The slot that a handheld is known in.
fn place_known(marks: &[Marks], name: &UserName, handheld: &UserInfo) -> Option<usize>
    ensures place { result ≡ seats.place_known marks.now name.now handheld.now }
    ensures within { IfSome result (λ place. place < length marks.now) }
{
    if handheld.user == 0 {
        return place_named(marks, name);
    }
    match place_numbered(marks, handheld.user) {
        Some(place) => Some(place),
        None => place_named(marks, &handheld.name),
    }
}

// Whether this name is asked for, and a side that has a number has another one.
fn is_another(name: &UserName, user: u32, own: &UserName) -> bool
    ensures { result ≡ seats.is_another name.now user own.now }
{
    !is_empty(name) && user != 0 && !is_same(own, name)
}

// Whether the slot at a place has another name.
fn is_another_at(marks: &[Marks], name: &UserName, place: Option<usize>) -> bool
    ensures { result ≡ seats.is_another_at marks.now name.now place }
{
    let Some(place) = place else {
        return false;
    };
    match marks.get(place) {
        Some(slot) => is_another(name, slot.user, &slot.name),
        None => false,
    }
}

// The slot of a user that no slot has.
fn newcomer(marks: &[Marks], add: bool) -> Slot
    requires some { 1 ≤ length marks.now }
    requires room { length marks.now ≤ 16 }
    ensures slot { result ≡ newcomer_in (seats.numbers_of marks.now) add }
    ensures within { IsWithin (length marks.now) result }
{
    if marks[0].user == 0 {
        Slot::Old(0)
    } else if !add {
        Slot::Refused
    } else if marks.len() < Slot::MOST {
        Slot::New
    } else {
        Slot::Full
    }
}

/// The slot of a handheld, by the marks of a desktop's slots in order.
///
/// It is the one of the handheld's number, else the first one of its name; of a handheld without a number the first one of the name that
/// is asked for, and slot 0 where none is. A slot 0 without a user takes the first user that comes. A user that no slot has gets a new
/// one, where one may be added. None has a handheld whose name, or whose slot's, is another one than is asked for.
pub fn seat_for(marks: &[Marks], wish: &UserWish, handheld: &UserInfo) -> Slot
    requires some { 1 ≤ length marks.now }
    requires room { length marks.now ≤ 16 }
    ensures slot { result ≡ seats.seat_for marks.now wish.now handheld.now }
    ensures within { IsWithin (length marks.now) result }
{
    let known = place_known(marks, &wish.name, handheld);
    if is_another(&wish.name, handheld.user, &handheld.name)
        || is_another_at(marks, &wish.name, known)
    {
        return Slot::Refused;
    }
    if handheld.user == 0 && is_empty(&wish.name) {
        return Slot::Old(0);
    }
    match known {
        Some(place) => Slot::Old(place),
        None => newcomer(marks, wish.add),
    }
}
