// What a synchronization makes of made folders: the function here does nothing, its contract is the law.
ghost use Rattle.std.specs.Prelude.{◌≤◌, ℕ};
ghost use Rattle.made_folders.specs.Items.{made};
ghost use Rattle.made_folders.specs.MadeMerges.{IsMadeMerge};

/// Made folders are merged by the kinds of their items: what the handheld changed or made is read, what the desktop changed is
/// replaced, what it made is added, what it lacks is purged, and nothing is archived.
pub fn made_folders_merge_by_kinds()
    ensures { (seed count : ℕ) → count ≤ 5000 → IsMadeMerge (made seed count) }
{}
