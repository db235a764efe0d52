// Which entries change a file.
ghost use Rattle.std.specs.Prelude.{◌≡◌, IfOk, IfSome, IsErrOf};
ghost use Rattle.hs_folders.specs.Causes.{HasCause};
ghost use Rattle.hs_folders.specs.Moments.{OnlyRead};
ghost use Rattle.desk_journal.specs.Entries.{IsJournal, entry_value, entry_values};
ghost use Rattle.desk_journal.specs.Steps as steps;
ghost use Rattle.desk_journal.specs.Steps.{changed_in};

use crate::entry::Entry;
use hs_folders::{Folder, FolderFault};
use std::alloc::Global;

// Those of the entries whose files are not there or have other bytes, in their order.
pub(crate) fn changed_entries<F: Folder>(
    alloc: Global,
    folder: &mut F,
    entries: Vec<Entry>,
) -> Result<Vec<Entry>, FolderFault>
    requires { IsJournal (entry_values entries.items) }
    ensures changed { IfOk result (λ changed. IfSome (F.contents folder.old)
        (λ held. entry_values changed.items ≡ changed_in held (entry_values entries.items))) }
    ensures form { IfOk result (λ changed. IsJournal (entry_values changed.items)) }
    ensures cause { HasCause (F.faults folder.old) (F.faults folder.new)
        (IsErrOf result FolderFault.Failed) }
    ensures never_missing { ¬ IsErrOf result FolderFault.Missing }
    ensures read { OnlyRead F.contents F.moments F.paths F.faults folder.old folder.new }
{
    let mut changed = Vec::new(alloc);
    for entry in entries {
        if is_changed(alloc, folder, &entry)? {
            changed.push(entry)?;
        }
    }
    Ok(changed)
}

// Whether the file of an entry is not there or has other bytes.
fn is_changed<F: Folder>(alloc: Global, folder: &mut F, entry: &Entry) -> Result<bool, FolderFault>
    ensures changed { IfOk result (λ changed. IfSome (F.contents folder.old)
        (λ held. changed ≡ steps.is_changed held (entry_value entry.now))) }
    ensures cause { HasCause (F.faults folder.old) (F.faults folder.new)
        (IsErrOf result FolderFault.Failed) }
    ensures never_missing { ¬ IsErrOf result FolderFault.Missing }
    ensures read { OnlyRead F.contents F.moments F.paths F.faults folder.old folder.new }
{
    match folder.read(alloc, entry.name.as_str()) {
        Ok(bytes) => Ok(bytes.as_slice() != entry.bytes.as_slice()),
        Err(FolderFault::Missing) => Ok(true),
        Err(fault) => Err(fault),
    }
}
