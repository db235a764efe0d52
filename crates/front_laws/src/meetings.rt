//! What holds of a meeting behind one that stopped. Each function here does nothing: its contract is the
//! law.
ghost use Rattle.std.specs.Prelude.{◌≡◌, is_none, true, ℕ, List};
ghost use Rattle.palm_device.specs.Soundness.{ids_of, AreIds};
ghost use Rattle.record_merge.specs.Merging.{AreBounded};
ghost use Rattle.session_plan.specs.Merges.{merged_slot};
ghost use Rattle.session_plan.specs.Skips.{skip_of};
ghost use Rattle.session_plan.specs.Tasks.{Meeting, Task, records_of, slot_of, task_of};
ghost use Rattle.front_laws.specs.Meetings.{AreMeetings, AreWholeMeetings, EndsAsFirst, Follows, HoldsAsFirst, IsTaskShown, found, last_of, merge_at, place_ended};
ghost use Rattle.front_laws.specs.Meetings.{LeftAmongNews, LeftBehindCommit, LeftAtEnd};
ghost use Rattle.front_laws.specs.Meetings.{IsActive, IsMergedAt, LeftMerged, StandsLike};
ghost use Rattle.front_laws.specs.Meetings.{holding_after, ids_at};
ghost use Rattle.front_laws.specs.Repeats.{IsRead, Place};
ghost use Rattle.front_laws.specs.Repeats.{among_news, behind_commit};

/// A reading of all shows what the handheld holds, and a fast one does where each record that it passes over
/// has the content of its base row.
pub fn a_reading_shows()
    ensures { (meeting : Meeting) (task : Task) → let records = records_of task.handheld in
        AreIds (ids_of records) → AreBounded records
        → IsTaskShown meeting task → IsRead (found meeting task) }
{}

/// Where a session stopped, the next meeting finds each database at the place of the stop: while the
/// handheld's mark says that a session was under way, all is read and gone rows count.
pub fn a_stop_is_found()
    ensures news { (meeting next : Meeting) (ids : List ℕ → List ℕ) (count : List ℕ → ℕ)
        (name : List ℕ)
        → LeftAmongNews meeting next ids count
        → Follows meeting next name (among_news (ids name) (count name)) }
    ensures commit { (meeting next : Meeting) (ids : List ℕ → List ℕ) (count : List ℕ → ℕ)
        (name : List ℕ)
        → LeftBehindCommit meeting next ids count name
        → Follows meeting next name (behind_commit (ids name) (count name)) }
    ensures end { (meeting next : Meeting) (ids : List ℕ → List ℕ) (name : List ℕ)
        → LeftAtEnd meeting next ids name
        → Follows meeting next name (place_ended next name (ids name)) }
{}

/// After any number of meetings that stopped, the last leaves of each database what the first would have
/// left, whichever ids that would have given to its new records.
pub fn meetings_that_stopped_end_as_one()
    ensures { (meeting : Meeting) (name : List ℕ) (es : List (Meeting × Place)) (later : List ℕ)
        → AreMeetings meeting name es later
        → EndsAsFirst meeting (last_of meeting es) name later }
{}

/// Behind a whole session the next meeting finds each database merged, and so on the desktop behind the
/// commit.
pub fn a_merge_is_found()
    ensures desktop { (meeting next : Meeting) (given : List ℕ) (name : List ℕ)
        → slot_of next ≡ merged_slot meeting given → IsActive meeting name
        → IsMergedAt next name (merge_at meeting given name) }
    ensures whole { (meeting next : Meeting) (given : List ℕ) (name : List ℕ)
        → LeftMerged meeting next given → IsActive meeting name
        → LeftAtEnd meeting next (ids_at meeting given) name }
    ensures holds { (meeting : Meeting) (given : List ℕ) (name : List ℕ) → IsActive meeting name
        → holding_after meeting given name ≡ merge_at meeting given name }
{}

/// After any number of meetings that stopped, both sides hold of each database what they would hold if the
/// first had ended, whichever ids it would have given to its new records.
pub fn both_sides_hold_what_one_meeting_leaves()
    ensures { (meeting : Meeting) (name : List ℕ) (es : List (Meeting × Place)) (later : List ℕ)
        → AreWholeMeetings meeting name es later
        → HoldsAsFirst meeting (last_of meeting es) name later }
{}

/// A database that a meeting doesn't skip isn't skipped by the next one, as long as heads say the same of
/// it and no side lost it; and so behind a whole session.
pub fn a_database_is_not_skipped_later()
    ensures likes { (meeting next : Meeting) (name : List ℕ) → StandsLike meeting next name
        → is_none (skip_of (task_of meeting name)) ≡ true
        → is_none (skip_of (task_of next name)) ≡ true }
    ensures whole { (meeting next : Meeting) (given : List ℕ) (name : List ℕ)
        → LeftMerged meeting next given → IsActive meeting name → IsActive next name }
{}
