// A change of a desktop.
ghost use Rattle.std.specs.Prelude.{◌≡◌, OnOk};
ghost use Rattle.desk_store.specs.Changes.{with_archive, with_change, with_changes};

use crate::role::Role;
use crate::shelves::Shelves;
use folder_files::Parted;
use pdb_values::{Database, Marks};
use std::alloc::AllocError;

/// What the picked slot of a desktop is to hold from now on.
#[derive(Drop)]
pub struct DeskChange {
    /// What the desktop knows of the user of the picked slot from now on.
    pub marks: Marks,
    /// The databases that took no part in the session that ends, at most 400, in rising byte order of their stems.
    pub parted: Vec<Parted>,
    /// The databases that change, at most 200, in rising byte order of their names.
    pub databases: Vec<DbChange>,
}

/// A database that changes. The two or three of them hold records and bear one name.
#[derive(Drop)]
pub struct DbChange {
    /// The rows.
    pub rows: Database,
    /// The base rows, live and gone ones.
    pub base: Database,
    /// What is archived, at least one entry. Where there is none the old archive stays.
    pub archive: Option<Database>,
}

// Puts the databases of a change among the others, the last one first.
pub(crate) fn put_changes(shelves: &mut Shelves, databases: Vec<DbChange>) -> Result<(), AllocError>
    ensures { OnOk result (shelves.new ≡ with_changes databases.items shelves.old) }
{
    let mut databases = databases;
    while let Some(database) = databases.pop() {
        put_change(shelves, database)?;
    }
    Ok(())
}

// Puts a database that changed among the others.
fn put_change(shelves: &mut Shelves, change: DbChange) -> Result<(), AllocError>
    ensures { OnOk result (shelves.new ≡ with_change change shelves.old) }
{
    let DbChange {
        rows,
        base,
        archive,
    } = change;
    shelves.put(Role::Rows, rows)?;
    shelves.put(Role::Base, base)?;
    match archive {
        Some(archive) => shelves.put(Role::Archive, archive),
        None => Ok(()),
    }
}
