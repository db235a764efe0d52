// Whether a handheld knows less of the desktop's records than the desktop's slot does.
ghost use Rattle.std.specs.Prelude.{◌≡◌};
ghost use Rattle.std.specs.List.{list_any};
ghost use Rattle.session_plan.specs.Losses as losses;

use conduit_rules::Seen;
use mirrors::agree;
use pdb_values::{Marks, Record, RecordId, UserInfo};

// Whether the handheld never ended a session.
fn never_ended(handheld: &UserInfo) -> bool
    ensures { result ≡ losses.never_ended handheld.now }
{
    handheld.pc == 0 && handheld.good.seconds() == 0
}

// Whether it ended its last one before the slot ended its own.
fn ended_before(handheld: &UserInfo, slot: &Marks) -> bool
    ensures { result ≡ losses.ended_before handheld.now slot.now }
{
    handheld.pc != 0 && handheld.good.seconds() < slot.last.seconds()
}

// Whether it is as a session of the slot leaves it that stopped.
fn is_as_stopped(handheld: &UserInfo, slot: &Marks) -> bool
    ensures { result ≡ losses.is_as_stopped handheld.now slot.now }
{
    handheld.pc == 0 && handheld.good.seconds() == slot.last.seconds()
}

// Whether the slot has a user, and the handheld another one or none.
fn has_other_user(handheld: &UserInfo, slot: &Marks) -> bool
    ensures { result ≡ losses.has_other_user handheld.now slot.now }
{
    slot.user != 0 && handheld.user != slot.user
}

/// Whether the slot ended a session, and the handheld isn't the one that it ended it with: both don't agree, and the handheld never ended
/// one, or ended an older one, or has another user, where no session of the slot stopped on it.
pub fn is_stranger_to(handheld: &UserInfo, slot: &Marks) -> bool
    ensures { result ≡ losses.is_stranger_to handheld.now slot.now }
{
    if slot.last.seconds() == 0 || agree(handheld, slot) {
        return false;
    }
    never_ended(handheld)
        || ended_before(handheld, slot)
        || (has_other_user(handheld, slot) && !is_as_stopped(handheld, slot))
}

// Whether both sides agreed on a record of the base: it isn't kept as one that is gone, and has an id.
fn is_agreed_on(row: &Record) -> bool
    ensures { result ≡ losses.is_agreed_on row.now }
{
    !row.deleted && row.id.number() != 0
}

// Whether the handheld has a record of this id, in whatever state.
fn is_there(view: &[Seen], id: RecordId) -> bool
    ensures { result ≡ losses.is_there view.now id }
{
    view.iter().any(|seen| seen.id == id)
}

// Whether the handheld has a record that both sides agreed on.
fn is_met(view: &[Seen], row: &Record) -> bool
    ensures { result ≡ losses.is_met view.now row.now }
{
    is_agreed_on(row) && is_there(view, row.id)
}

// Whether both sides agreed on a record among these.
fn is_any_agreed_on(base: &[Record]) -> bool
    ensures { result ≡ list_any losses.is_agreed_on base.now }
{
    base.iter().any(|row| is_agreed_on(row))
}

// Whether the handheld has a record that both sides agreed on among these. It ends at the first.
fn is_any_met(base: &[Record], view: &[Seen]) -> bool
    ensures { result ≡ list_any (losses.is_met view.now) base.now }
{
    base.iter().any(|row| is_met(view, row))
}

/// Whether both sides agreed on some records of a base, and the handheld has none of them.
pub fn has_lost_all(base: &[Record], view: &[Seen]) -> bool
    ensures { result ≡ losses.has_lost_all base.now view.now }
{
    is_any_agreed_on(base) && !is_any_met(base, view)
}
