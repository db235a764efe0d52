// A change of several files, whole at every moment.
ghost use Rattle.std.specs.Prelude.{◌≡◌, ◌⊎◌, IfSome, IsErrOf, OnErr, OnOk, Some};
ghost use Rattle.std.specs.Option.{option_map};
ghost use Rattle.hs_folders.specs.Causes.{HasCause};
ghost use Rattle.hs_folders.specs.Moments.{EachMomentSince};
ghost use Rattle.desk_journal.specs.Entries.{IsJournal, entry_values};
ghost use Rattle.desk_journal.specs.Overlays.{FinishesAs, HasNoJournal, StandsAs, put_all};
ghost use Rattle.desk_journal.specs.Steps.{GoesThrough, GoesThroughAll, by_journal, commit_steps, steps_over};

use crate::change::changed_entries;
use crate::entry::Entry;
use crate::folder::carry_out;
use crate::writer::write_journal;
use folder_files::JOURNAL;
use hs_folders::{Folder, FolderFault};
use std::alloc::{AllocError, Global};

/// Makes the bytes of each entry those of its file. Files that have them already are left alone. One that is left is replaced,
/// and of more it writes the journal, replaces each in the order of the entries, and removes the journal. After a refusal the
/// journal may be left: opening the folder finishes it.
pub fn commit_files<F: Folder>(
    alloc: Global,
    folder: &mut F,
    entries: Vec<Entry>,
) -> Result<(), FolderFault>
    requires form { IsJournal (entry_values entries.items) }
    requires no_journal { IfSome (F.contents folder.old) HasNoJournal }

    // All files hold their new bytes, the others what they held, and no journal is left.
    ensures done { OnOk result (F.contents folder.new ≡ option_map
        (put_all (entry_values entries.items)) (F.contents folder.old)) }
    // After a refusal the folder stands for what it stood for, or for the whole change.
    ensures refused { OnErr result (StandsAs (F.contents folder.old) (F.contents folder.new)
        ⊎ StandsAs (option_map (put_all (entry_values entries.items)) (F.contents folder.old))
        (F.contents folder.new)) }
    // From the first moment of the call on, at which the journal is there, it stands for the whole change.
    ensures each_moment { EachMomentSince (StandsAs
        (option_map (put_all (entry_values entries.items)) (F.contents folder.old)))
        (F.moments folder.old) (F.moments folder.new) }

    // Whatever was left, once the journal is finished the files are those from before, or those of the whole change.
    ensures left { FinishesAs (F.contents folder.old) (F.contents folder.new)
        ⊎ FinishesAs (option_map (put_all (entry_values entries.items)) (F.contents folder.old))
        (F.contents folder.new) }
    ensures each_left { EachMomentSince (FinishesAs
        (option_map (put_all (entry_values entries.items)) (F.contents folder.old)))
        (F.moments folder.old) (F.moments folder.new) }

    // The moments of the call: it writes no file that has its bytes already, and each other one in the order of the entries.
    ensures steps { IfSome (F.contents folder.old) (λ held. GoesThrough
        (steps_over held (entry_values entries.items)) (Some held)
        (F.contents folder.new) (F.moments folder.old) (F.moments folder.new)) }
    ensures all { OnOk result (IfSome (F.contents folder.old) (λ held. GoesThroughAll
        (steps_over held (entry_values entries.items))
        (F.moments folder.old) (F.moments folder.new))) }

    ensures cause { HasCause (F.faults folder.old) (F.faults folder.new)
        (IsErrOf result FolderFault.Failed) }
    ensures never_missing { ¬ IsErrOf result FolderFault.Missing }
    ensures paths { F.paths folder.new ≡ F.paths folder.old }
{
    let changed = changed_entries(alloc, folder, entries)?;
    replace_files(alloc, folder, &changed)
}

// Replaces the file of each entry, by way of a journal where there is more than one.
fn replace_files<F: Folder>(
    alloc: Global,
    folder: &mut F,
    entries: &[Entry],
) -> Result<(), FolderFault>
    requires form { IsJournal (entry_values entries.now) }
    requires no_journal { IfSome (F.contents folder.old) HasNoJournal }
    ensures done { OnOk result (F.contents folder.new ≡ option_map
        (put_all (entry_values entries.now)) (F.contents folder.old)) }
    ensures steps { GoesThrough (commit_steps (entry_values entries.now) (F.contents folder.old))
        (F.contents folder.old) (F.contents folder.new) (F.moments folder.old)
        (F.moments folder.new) }
    ensures all { OnOk result (IfSome (F.contents folder.old) (λ held. GoesThroughAll
        (commit_steps (entry_values entries.now) (Some held)) (F.moments folder.old)
        (F.moments folder.new))) }
    ensures cause { HasCause (F.faults folder.old) (F.faults folder.new)
        (IsErrOf result FolderFault.Failed) }
    ensures never_missing { ¬ IsErrOf result FolderFault.Missing }
    ensures paths { F.paths folder.new ≡ F.paths folder.old }
{
    match entries {
        [] => Ok(()),
        [entry] => folder.replace(entry.name.as_str(), &entry.bytes),
        _ => replace_by_journal(alloc, folder, entries),
    }
}

// Writes the journal of the entries, replaces each file, and removes the journal.
fn replace_by_journal<F: Folder>(
    alloc: Global,
    folder: &mut F,
    entries: &[Entry],
) -> Result<(), FolderFault>
    requires form { IsJournal (entry_values entries.now) }
    requires no_journal { IfSome (F.contents folder.old) HasNoJournal }
    ensures done { OnOk result (F.contents folder.new ≡ option_map
        (put_all (entry_values entries.now)) (F.contents folder.old)) }
    ensures steps { GoesThrough (by_journal (entry_values entries.now) (F.contents folder.old))
        (F.contents folder.old) (F.contents folder.new) (F.moments folder.old)
        (F.moments folder.new) }
    ensures all { OnOk result (IfSome (F.contents folder.old) (λ held. GoesThroughAll
        (by_journal (entry_values entries.now) (Some held)) (F.moments folder.old)
        (F.moments folder.new))) }
    ensures cause { HasCause (F.faults folder.old) (F.faults folder.new)
        (IsErrOf result FolderFault.Failed) }
    ensures never_missing { ¬ IsErrOf result FolderFault.Missing }
    ensures paths { F.paths folder.new ≡ F.paths folder.old }
{
    let journal = match write_journal(alloc, entries) {
        Ok(journal) => journal,
        Err(AllocError) => return Err(FolderFault::NoMemory),
    };
    folder.replace(JOURNAL, &journal)?;
    carry_out(folder, entries)?;
    Ok(())
}
