// Which marks a slot may get.
ghost use Rattle.std.specs.Prelude.{◌≡◌, ◌<◌, ◌↔◌, IsTrue, length};
ghost use Rattle.desk_store.specs.Changes.{IsFree, MayBear};

use crate::slot::DeskSlot;
use pdb_values::Marks;

// Whether the slot at this place may get these marks.
pub(crate) fn may_bear(slots: &[DeskSlot], place: usize, marks: &Marks) -> bool
    requires { 0 < length slots.now }
    ensures { IsTrue result ↔ MayBear slots.now place marks.now }
{
    let first = &slots[0];
    if marks.pc != first.marks.pc {
        return false;
    }
    if marks.user == 0 && place != 0 {
        return false;
    }
    is_free(slots, place, marks.user)
}

// Whether no other slot has this user.
fn is_free(slots: &[DeskSlot], place: usize, user: u32) -> bool
    ensures { IsTrue result ↔ IsFree slots.now place user }
{
    for (index, slot) in slots.iter().enumerate() {
        if index != place && slot.marks.user == user {
            return false;
        }
    }
    true
}
