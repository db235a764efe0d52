// Steps of a change in a folder.
ghost use Rattle.std.specs.Prelude.{◌≡◌, ◌∷◌, [], Some, IfSome, IsErrOf, IsSome, OnErr, OnOk};
ghost use Rattle.std.specs.FinMap as finmap;
ghost use Rattle.std.specs.Option.{option_map};
ghost use Rattle.hs_folders.specs.Causes.{HasCause};
ghost use Rattle.folder_files.specs.FileNames.{journal_file};
ghost use Rattle.desk_journal.specs.Entries.{IsJournal, entry_values, journal_text};
ghost use Rattle.desk_journal.specs.Overlays.{overlay, put_all};
ghost use Rattle.desk_journal.specs.Steps.{GoesThrough, GoesThroughAll, journal_steps, replacements, without_journal};

use crate::entry::Entry;
use folder_files::JOURNAL;
use hs_folders::{Folder, FolderFault};

// Carries out what the folder's journal says, and removes the journal.
pub(crate) fn carry_out<F: Folder>(folder: &mut F, entries: &[Entry]) -> Result<(), FolderFault>
    requires form { IsJournal (entry_values entries.now) }
    requires written { IfSome (F.contents folder.old)
        (λ held. finmap.get held journal_file ≡ Some (journal_text (entry_values entries.now))) }
    ensures done { OnOk result (F.contents folder.new ≡ option_map overlay
        (F.contents folder.old)) }
    ensures steps { GoesThrough (journal_steps (entry_values entries.now) (F.contents folder.old))
        (F.contents folder.old) (F.contents folder.new) (F.moments folder.old)
        (F.moments folder.new) }
    ensures all { OnOk result (IfSome (F.contents folder.old) (λ held. GoesThroughAll
        (journal_steps (entry_values entries.now) (Some held)) (F.moments folder.old)
        (F.moments folder.new))) }
    ensures cause { HasCause (F.faults folder.old) (F.faults folder.new)
        (IsErrOf result FolderFault.Failed) }
    ensures never_missing { ¬ IsErrOf result FolderFault.Missing }
    ensures paths { F.paths folder.new ≡ F.paths folder.old }
{
    replace_all(folder, entries)?;
    remove_journal(folder)?;
    Ok(())
}

// Replaces the file of each entry, in their order.
fn replace_all<F: Folder>(folder: &mut F, entries: &[Entry]) -> Result<(), FolderFault>
    ensures done { OnOk result (F.contents folder.new ≡ option_map
        (put_all (entry_values entries.now)) (F.contents folder.old)) }
    ensures steps { GoesThrough (replacements (entry_values entries.now) (F.contents folder.old))
        (F.contents folder.old) (F.contents folder.new) (F.moments folder.old)
        (F.moments folder.new) }
    ensures all { OnOk result (GoesThroughAll
        (replacements (entry_values entries.now) (F.contents folder.old)) (F.moments folder.old)
        (F.moments folder.new)) }
    ensures cause { HasCause (F.faults folder.old) (F.faults folder.new)
        (IsErrOf result FolderFault.Failed) }
    ensures never_missing { ¬ IsErrOf result FolderFault.Missing }
    ensures paths { F.paths folder.new ≡ F.paths folder.old }
{
    for entry in entries {
        folder.replace(entry.name.as_str(), &entry.bytes)?;
    }
    Ok(())
}

// Removes the journal, which is there. A folder that tells nothing may say that it is missing: then it is removed.
fn remove_journal<F: Folder>(folder: &mut F) -> Result<(), FolderFault>
    requires there { IfSome (F.contents folder.old)
        (λ held. IsSome (finmap.get held journal_file)) }
    ensures removed { OnOk result (F.contents folder.new
        ≡ without_journal (F.contents folder.old)) }
    ensures steps { GoesThrough (without_journal (F.contents folder.old) ∷ [])
        (F.contents folder.old) (F.contents folder.new) (F.moments folder.old)
        (F.moments folder.new) }
    ensures all { OnOk result (IfSome (F.contents folder.old) (λ _. GoesThroughAll
        (without_journal (F.contents folder.old) ∷ []) (F.moments folder.old)
        (F.moments folder.new))) }
    ensures cause { HasCause (F.faults folder.old) (F.faults folder.new)
        (IsErrOf result FolderFault.Failed) }
    ensures never_missing { ¬ IsErrOf result FolderFault.Missing }
    ensures paths { F.paths folder.new ≡ F.paths folder.old }
{
    match folder.remove(JOURNAL) {
        Ok(()) => Ok(()),
        Err(FolderFault::Missing) => Ok(()),
        Err(fault) => Err(fault),
    }
}
