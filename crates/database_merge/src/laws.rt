//! What holds of every merge. The function here does nothing: its contract is the law.
ghost use Rattle.std.specs.Prelude.{◌≡◌, List, Some, ℕ};
ghost use Rattle.conduit_rules.specs.declared.action.Action.{Action};
ghost use Rattle.pdb_values.specs.Databases.{DatabaseValue};
ghost use Rattle.record_merge.specs.Whole.{AreRecords};
ghost use Rattle.session_plan.specs.Sizes.{is_over};
ghost use Rattle.session_plan.specs.Skips.{skip_of as skip_of_task};
ghost use Rattle.session_plan.specs.Tasks.{Meeting, Task, records_of};
ghost use Rattle.database_merge.specs.Meetings.{IsReadWhole, LeavesAsMerge, finds_full, sides_of_task, sizes_alone};
ghost use Rattle.database_merge.specs.Seeing.{skip_of};

/// A session that reads all records of a database leaves of it what a merge leaves, with the ids that its new records got;
/// it skips it for the same reason, and finds a limit passed where a merge does.
pub fn a_session_leaves_the_same()
    ensures left { (meeting : Meeting) (task : Task) (action : Action) (given : List ℕ)
        (before rows : DatabaseValue) → IsReadWhole meeting task action
        → LeavesAsMerge meeting task action given before rows }
    ensures skipped { (task : Task) (action : Action) → task.action ≡ Some action
        → skip_of_task task ≡ skip_of (sides_of_task task) action }
    ensures full { (meeting : Meeting) (task : Task) (action : Action)
        → IsReadWhole meeting task action → AreRecords (records_of task.handheld)
        → finds_full meeting task action ≡ is_over (sizes_alone meeting task) }
{}
