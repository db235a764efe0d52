// What both sides know of each other.
ghost use Rattle.std.specs.Prelude.{◌≡◌, ◌≤◌, length};
ghost use Rattle.std.specs.List.{list_any};
ghost use Rattle.desktop_session.specs.Seats.{is_nobody as is_nobody_of};
ghost use Rattle.session_plan.specs.Users as users;

use crate::numbers::new_number;
use crate::strangers::is_stranger_to;
use pdb_values::{Marks, PalmDate, UserInfo, UserName};

// Whether the slot's user is agreed on.
fn slots_user_stays(handheld: &UserInfo, slot: &Marks) -> bool
    ensures { result ≡ users.slots_user_stays handheld.now slot.now }
{
    handheld.user == 0 && slot.user != 0
}

// Whether neither side has a number, and a name is asked for.
fn is_named_first(name: &UserName, handheld: &UserInfo, slot: &Marks) -> bool
    ensures { result ≡ users.is_named_first name.now handheld.now slot.now }
{
    !name.as_bytes().is_empty() && handheld.user == 0 && slot.user == 0
}

// Whether a handheld has no number, and no name is asked for.
fn is_nobody(name: &UserName, handheld: &UserInfo) -> bool
    ensures { result ≡ is_nobody_of name.now handheld.now }
{
    handheld.user == 0 && name.as_bytes().is_empty()
}

// Whether a slot has this name, and a number other than this one.
fn has_name_too(slot: &Marks, handheld: &UserInfo) -> bool
    ensures { result ≡ users.has_name_too handheld.now slot.now }
{
    slot.user != 0 && slot.name.as_bytes() == handheld.name.as_bytes() && slot.user != handheld.user
}

// Whether a slot of another number has a handheld's name.
fn is_named_elsewhere(marks: &[Marks], handheld: &UserInfo) -> bool
    ensures { result ≡ list_any (users.has_name_too handheld.now) marks.now }
{
    marks.iter().any(|slot| has_name_too(slot, handheld))
}

// Whether a handheld has a name, and no slot of another number has it.
fn has_own_name(marks: &[Marks], handheld: &UserInfo) -> bool
    ensures { result ≡ users.has_own_name marks.now handheld.now }
{
    !handheld.name.as_bytes().is_empty() && !is_named_elsewhere(marks, handheld)
}

// Whether a stranger meets a slot that has a number, and is found again. One without a number is that only where a name is asked for.
fn begins_life(marks: &[Marks], name: &UserName, handheld: &UserInfo, slot: &Marks) -> bool
    ensures { result ≡ users.begins_life marks.now name.now handheld.now slot.now }
{
    slot.user != 0
        && !is_nobody(name, handheld)
        && is_stranger_to(handheld, slot)
        && (handheld.user != slot.user || has_own_name(marks, handheld))
}

// The name of the user that both sides agree on.
fn agreed_name(name: &UserName, handheld: &UserInfo, slot: &Marks) -> UserName
    ensures { result ≡ users.agreed_name name.now handheld.now slot.now }
{
    if is_named_first(name, handheld, slot) {
        name.copy()
    } else if slots_user_stays(handheld, slot) {
        slot.name.copy()
    } else {
        handheld.name.copy()
    }
}

// The number of the user that both sides agree on.
fn agreed_user(
    date: PalmDate,
    name: &UserName,
    marks: &[Marks],
    handheld: &UserInfo,
    slot: &Marks,
) -> u32
    requires { length marks.now ≤ 16 }
    ensures { result ≡ users.agreed_user date name.now marks.now handheld.now slot.now }
{
    if is_named_first(name, handheld, slot) || begins_life(marks, name, handheld, slot) {
        let agreed = agreed_name(name, handheld, slot);
        new_number(date, &agreed, slot.user, marks, handheld.user)
    } else if slots_user_stays(handheld, slot) {
        slot.user
    } else {
        handheld.user
    }
}

// What the handheld knows of its user, once more.
fn same_user(handheld: &UserInfo) -> UserInfo
    ensures { result ≡ handheld.now }
{
    UserInfo {
        user: handheld.user,
        viewer: handheld.viewer,
        pc: handheld.pc,
        good: handheld.good,
        last: handheld.last,
        name: handheld.name.copy(),
        password: handheld.password.copy(),
    }
}

/// What the handheld knows while a session is under way: no desktop.
pub fn begun_user(handheld: &UserInfo) -> UserInfo
    ensures { result ≡ users.begun_user handheld.now }
{
    let mut user = same_user(handheld);
    user.pc = 0;
    user
}

/// What the handheld knows once a session is done, by what the desktop knows then: the agreed user, this desktop, and the date.
pub fn done_user(handheld: &UserInfo, done: &Marks) -> UserInfo
    ensures { result ≡ users.done_user handheld.now done.now }
{
    let mut user = same_user(handheld);
    user.user = done.user;
    user.pc = done.pc;
    user.good = done.last;
    user.last = done.last;
    user.name = done.name.copy();
    user
}

/// What the desktop knows once a session of this date is done, by the marks of its slots: the agreed user, and the date. Where neither
/// side has a number, both get the name that is asked for, and a new number. A stranger to a slot that has a number begins another life,
/// where it has one itself or a name is asked for.
pub fn done_marks(
    date: PalmDate,
    name: &UserName,
    marks: &[Marks],
    handheld: &UserInfo,
    slot: &Marks,
) -> Marks
    requires { length marks.now ≤ 16 }
    ensures { result ≡ users.done_marks date name.now marks.now handheld.now slot.now }
{
    Marks {
        pc: slot.pc,
        user: agreed_user(date, name, marks, handheld, slot),
        last: date,
        name: agreed_name(name, handheld, slot),
    }
}
