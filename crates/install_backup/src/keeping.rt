// Databases that are backed up one after another.
ghost use Rattle.std.specs.Prelude.{◌≡◌, ◌++◌, ◌∷◌, [], IfErr, IsErrOf, OnErr, OnOk, false};
ghost use Rattle.std.specs.Option.{option_map};
ghost use Rattle.hs_folders.specs.Causes.{HasCause};
ghost use Rattle.hs_folders.specs.Moments.{EachMomentSince, IsBeforeOrAfter};
ghost use Rattle.desk_journal.specs.Overlays.{put_all};
ghost use Rattle.session_parts.specs.declared.stop.Stop.TheVariants as stops;
ghost use Rattle.desktop_session.specs.declared.fault.SessionFault.TheVariants as session;
ghost use Rattle.install_backup.specs.Backups.{IsUnkept, KeepsOne, KeepsSome, file_of, kept_moved};

use crate::backing_up::backup_one;
use crate::many::push_moved;
use crate::moved::Moved;
use desktop_session::{Linked, SessionFault};
use dlp_commands::Link;
use folder_files::database_file;
use hs_folders::{Folder, FolderFault};
use pdb_files::{entry_count, write_database};
use pdb_values::{Database, DbHead};
use session_parts::Stop;
use std::alloc::{AllocError, Global};

// Makes the canonical bytes of a database those of its file, whole or not at all at each moment.
fn keep<D: Folder>(alloc: Global, folder: &mut D, database: &Database) -> Result<(), Stop>
    ensures kept { OnOk result (D.contents folder.new
        ≡ option_map (put_all (file_of database.now ∷ [])) (D.contents folder.old)) }
    ensures stays { OnErr result (D.contents folder.new ≡ D.contents folder.old) }
    ensures moments { EachMomentSince
        (IsBeforeOrAfter (D.contents folder.old) (D.contents folder.new))
        (D.moments folder.old) (D.moments folder.new) }
    ensures unkept { IfErr result IsUnkept }
    ensures cause { HasCause (D.faults folder.old) (D.faults folder.new)
        (IsErrOf result stops.DeskFault) }
    ensures paths { D.paths folder.new ≡ D.paths folder.old }
{
    let file = database_file(alloc, database.head())?;
    let bytes = write_database(alloc, database)?;
    match folder.replace(file.as_str(), &bytes) {
        Ok(()) => Ok(()),
        Err(FolderFault::Failed) => Err(Stop::DeskFault),
        Err(FolderFault::NoMemory | FolderFault::Missing) => Err(Stop::Session(
            SessionFault::NoMemory,
        )),
    }
}

// What is told of a database whose file is kept.
fn moved_of(database: &Database) -> Moved
    ensures { result ≡ kept_moved database.now }
{
    Moved {
        name: database.head().name.copy(),
        entries: Some(entry_count(database) as u32),
    }
}

// Reads one database whole, and keeps its file.
fn keep_one<L: Link, D: Folder>(
    alloc: Global,
    linked: &mut Linked<L>,
    folder: &mut D,
    head: &DbHead,
) -> Result<Moved, Stop>
    requires { linked.old.abandoned ≡ false }
    ensures keeps { KeepsOne L.talk L.since L.fault L.downs D.contents D.moments head.now linked.old
        linked.new folder.old folder.new result }
    ensures cause { HasCause (D.faults folder.old) (D.faults folder.new)
        (IsErrOf result stops.DeskFault) }
    ensures paths { D.paths folder.new ≡ D.paths folder.old }
{
    let whole = backup_one(alloc, linked, head)?;
    keep(alloc, folder, &whole)?;
    Ok(moved_of(&whole))
}

/// Reads each of these databases of the handheld whole, one after another, as `backup_one` does, and makes the canonical bytes of each
/// those of its file as soon as it was closed.
pub fn backup_all<L: Link, D: Folder>(
    alloc: Global,
    linked: &mut Linked<L>,
    folder: &mut D,
    heads: &[DbHead],
) -> Result<Vec<Moved>, Stop>
    requires { linked.old.abandoned ≡ false }
    ensures keeps { KeepsSome L.talk L.since L.fault L.downs D.contents D.moments heads.now linked.old
        linked.new folder.old folder.new result }
    ensures cause { HasCause (D.faults folder.old) (D.faults folder.new)
        (IsErrOf result stops.DeskFault) }
    ensures paths { D.paths folder.new ≡ D.paths folder.old }
{
    let mut moved = Vec::new(alloc);
    for head in heads {
        let one = keep_one(alloc, linked, folder, head)?;
        push_moved(&mut moved, one)?;
    }
    Ok(moved)
}
