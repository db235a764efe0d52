// Finishing the journal of an earlier change.
ghost use Rattle.std.specs.Prelude.{◌≡◌, IfOk, IfSome, IsErrOf, None, Ok, OnOk};
ghost use Rattle.std.specs.FinMap as finmap;
ghost use Rattle.std.specs.Option.{option_map};
ghost use Rattle.hs_folders.specs.Causes.{HasCause};
ghost use Rattle.hs_folders.specs.Moments.{EachMomentSince};
ghost use Rattle.folder_files.specs.FileNames.{journal_file};
ghost use Rattle.desk_journal.specs.Overlays.{FinishesAs, HasNoJournal, StandsAs, bad_of, finished};

use crate::bad_journal::BadJournal;
use crate::fault::JournalFault;
use crate::folder::carry_out;
use crate::reader::read_journal;
use folder_files::JOURNAL;
use hs_folders::{Folder, FolderFault};
use std::alloc::Global;

/// Finishes the journal of the folder, where there is one. One that is out of its form is left as it is, and its first bad
/// place is answered.
pub fn finish_journal<F: Folder>(
    alloc: Global,
    folder: &mut F,
) -> Result<Option<BadJournal>, FolderFault>
    // Each file of the journal holds its bytes, and no journal is left but a bad one.
    ensures done { OnOk result (F.contents folder.new ≡ option_map finished
        (F.contents folder.old)) }
    ensures no_journal { result ≡ Ok None → IfSome (F.contents folder.new) HasNoJournal }
    ensures bad { IfOk result (λ bad. IfSome (F.contents folder.old)
        (λ held. bad ≡ bad_of (finmap.get held journal_file))) }

    // The folder stands for what it stood for, at each moment and whatever the answer.
    ensures stands { StandsAs (F.contents folder.old) (F.contents folder.new) }
    ensures each_moment { EachMomentSince (StandsAs (F.contents folder.old)) (F.moments folder.old)
        (F.moments folder.new) }
    // And finishing the journal that is left then leaves the same files.
    ensures left { FinishesAs (F.contents folder.old) (F.contents folder.new) }
    ensures each_left { EachMomentSince (FinishesAs (F.contents folder.old)) (F.moments folder.old)
        (F.moments folder.new) }

    ensures cause { HasCause (F.faults folder.old) (F.faults folder.new)
        (IsErrOf result FolderFault.Failed) }
    ensures never_missing { ¬ IsErrOf result FolderFault.Missing }
    ensures paths { F.paths folder.new ≡ F.paths folder.old }
{
    let bytes = match folder.read(alloc, JOURNAL) {
        Ok(bytes) => bytes,
        Err(FolderFault::Missing) => return Ok(None),
        Err(fault) => return Err(fault),
    };
    let entries = match read_journal(alloc, &bytes) {
        Ok(entries) => entries,
        Err(JournalFault::Bad(bad)) => return Ok(Some(bad)),
        Err(JournalFault::NoMemory) => return Err(FolderFault::NoMemory),
    };
    carry_out(folder, &entries)?;
    Ok(None)
}
