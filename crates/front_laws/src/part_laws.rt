//! What holds of a database in sessions that it takes part in, or not, one behind another. Each function here does nothing: its contract
//! is the law.
ghost use Rattle.std.specs.Prelude.{◌≡◌, ℕ, List, true};
ghost use Rattle.pdb_values.specs.Contents.{ContentValue};
ghost use Rattle.session_plan.specs.Merges.{merged_slot};
ghost use Rattle.session_plan.specs.Tasks.{Meeting, slot_of};
ghost use Rattle.front_laws.specs.Keeping.{IsKept, LetsBe, holding_at};
ghost use Rattle.front_laws.specs.Lives.{is_there};
ghost use Rattle.front_laws.specs.Parts.{HasFewRows, IsReadAnew, TakesNoPart};
ghost use Rattle.front_laws.specs.Sound.{IsSoundMeeting};

/// A database that took no part in a session that ended isn't agreed on: the next session with that slot,
/// whatever its handheld and its words, reads all of it, and its gone rows count there.
pub fn what_took_no_part_is_not_agreed_on()
    ensures { (meeting next : Meeting) (given name : List ℕ) → IsSoundMeeting meeting
        → HasFewRows meeting → TakesNoPart meeting name
        → (slot_of next).parted ≡ (merged_slot meeting given).parted → IsReadAnew next name }
{}

/// A session that ended, or stopped anywhere, or skips a database, loses no content of it that nobody let go; and what it leaves unmarked
/// on the handheld is as both sides agreed on it.
pub fn a_meeting_loses_nothing()
    ensures kept { (c : ContentValue) (meeting next : Meeting) (name : List ℕ)
        → LetsBe c meeting next name → IsKept c next name }
    ensures there { (c : ContentValue) (meeting next : Meeting) (name : List ℕ)
        → LetsBe c meeting next name → is_there c (holding_at meeting name) ≡ true
        → is_there c (holding_at next name) ≡ true }
{}
