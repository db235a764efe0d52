//! What holds of every session. Each function here does nothing: its contract is the law.
ghost use Rattle.std.specs.Prelude.{◌≡◌, ℕ, List, None, map};
ghost use Rattle.conduit_rules.specs.Choices.{Sides, choice_for};
ghost use Rattle.conduit_rules.specs.Plans.{IsPlan};
ghost use Rattle.record_merge.specs.Merging.{merged_base, merged_rows};
ghost use Rattle.desktop_session.specs.Acts.{text};
ghost use Rattle.desktop_session.specs.Tellings.{IsTellable, device_after};
ghost use Rattle.session_plan.specs.Limits.{first_over};
ghost use Rattle.session_plan.specs.Losses.{first_loss};
ghost use Rattle.session_plan.specs.PlannedLosses.{loss_planned};
ghost use Rattle.sync_session.specs.PlannedTasks.{ArePlannedFor, limit_in, over_in, reports_in};
ghost use Rattle.session_parts.specs.Quiet.{AreQuiet};
ghost use Rattle.session_plan.specs.Reports.{reports};
ghost use Rattle.session_parts.specs.Rests.{IsAtRest};
ghost use Rattle.session_plan.specs.Rows.{planned_base, planned_rows};
ghost use Rattle.sync_session.specs.Sessions.{before_writes, requests, session};
ghost use Rattle.session_plan.specs.Tasks.{Meeting, slot_of};

use conduit_rules::{Action, Plan};
use session_plan::Planned;

/// What is said up to the first mark changes no database and not the user.
pub fn nothing_is_written_before_the_mark()
    ensures { (meeting : Meeting) → AreQuiet (before_writes meeting) }
{}

/// What is said up to the first mark leaves a handheld on which nothing is open as it was: the readings close
/// each database that they open.
pub fn readings_leave_the_handheld()
    ensures { (meeting : Meeting) → IsAtRest meeting.device
        → device_after (before_writes meeting) meeting.device ≡ meeting.device }
{}

/// The requests of a session are the same whatever ids its new records get.
pub fn requests_bear_no_given_id()
    ensures { (meeting : Meeting) (given : List ℕ)
        → map text (session meeting given) ≡ requests meeting }
{}

/// The rows and the base rows of a plan are those of the merge.
pub fn planned_rows_are_merged()
    ensures rows { (action : Action) (sides : Sides) (plan : Plan) (given : List ℕ)
        → IsPlan action sides plan
        → planned_rows plan given ≡ merged_rows (choice_for action sides) given }
    ensures base { (action : Action) (sides : Sides) (plan : Plan) (given : List ℕ)
        → IsPlan action sides plan
        → planned_base plan given ≡ merged_base (choice_for action sides) sides.handheld given }
{}

/// The first planned database that would pass a limit is the first one of the meeting, over a handheld whose values keep their bounds, and
/// so is the limit that a session tells: such a handheld never has a 201st database.
pub fn the_first_over_is_the_meetings()
    ensures over { (meeting : Meeting) (planned : List Planned)
        → IsTellable meeting.device → ArePlannedFor meeting planned
        → over_in meeting planned ≡ first_over meeting }
    ensures told { (meeting : Meeting) (planned : List Planned)
        → IsTellable meeting.device → ArePlannedFor meeting planned
        → limit_in meeting planned ≡ first_over meeting }
{}

/// The first planned database by which the session would cost the desktop live rows is the first one of the meeting.
pub fn the_first_loss_is_the_meetings()
    ensures { (meeting : Meeting) (planned : List Planned) → ArePlannedFor meeting planned
        → loss_planned meeting.device.user (slot_of meeting).marks (slot_of meeting).parted
        (slot_of meeting).shelves planned
        ≡ first_loss meeting }
{}

/// Where none would pass a limit, what is told of the planned databases is what is told of the meeting.
pub fn what_is_told_is_the_meetings()
    ensures { (meeting : Meeting) (planned : List Planned)
        → IsTellable meeting.device → ArePlannedFor meeting planned → first_over meeting ≡ None
        → reports_in meeting planned ≡ reports meeting }
{}
