// The slots of a desktop, one for each user that it serves.
ghost use Rattle.std.specs.Prelude.{◌≡◌, ◌≤◌, ◌<◌, ◌==◌, IfSome, length, position};
ghost use Rattle.pdb_values.specs.Slots as slots;

/// The slot of a user on a desktop.
#[derive(Clone, Copy)]
pub enum Slot {
    /// The slot at this place.
    Old(usize),
    /// A new slot behind the others.
    New,
    /// No slot has this user, and none may be added.
    Refused,
    /// No slot has this user, and all sixteen are taken.
    Full,
}

impl Slot {
    /// The slots that a desktop can have.
    pub const MOST: usize = 16;
}

// The slot that a user has.
fn place_of(users: &[u32], user: u32) -> Option<usize>
    ensures place { result ≡ position (λ other. other == user) users.now }
    ensures within { IfSome result (λ place. place < length users.now) }
{
    users.iter().position(|other| *other == user)
}

// The slot of a user that no slot has.
fn newcomer(users: &[u32], add: bool) -> Slot
    requires some { 1 ≤ length users.now }
    requires room { length users.now ≤ 16 }
    ensures slot { result ≡ slots.newcomer users.now add }
    ensures within { slots.IsWithin (length users.now) result }
{
    if users[0] == 0 {
        Slot::Old(0)
    } else if !add {
        Slot::Refused
    } else if users.len() < Slot::MOST {
        Slot::New
    } else {
        Slot::Full
    }
}

/// The slot of the user of a handheld, by the users of a desktop's slots in order.
///
/// A handheld without a user (user id 0) is slot 0's. A slot 0 without a user takes the first user that comes.
/// `add` says whether a user that no slot has may get one.
pub fn slot_for(users: &[u32], user: u32, add: bool) -> Slot
    requires some { 1 ≤ length users.now }
    requires room { length users.now ≤ 16 }
    ensures slot { result ≡ slots.slot_for users.now user add }
    ensures within { slots.IsWithin (length users.now) result }
{
    if user == 0 {
        return Slot::Old(0);
    }
    match place_of(users, user) {
        Some(place) => Slot::Old(place),
        None => newcomer(users, add),
    }
}
