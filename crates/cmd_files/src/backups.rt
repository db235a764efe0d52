// The folder of a restore, opened and read.
ghost use Rattle.std.specs.Prelude.{◌≡◌, ◌≢◌, ◌≤◌, IfErr, IfOk, IfSome, OnOk};
ghost use Rattle.std.specs.List.{AllByRecursion};
ghost use Rattle.hs_folders.specs.Causes.{Rose};
ghost use Rattle.pdb_values.specs.NamedDatabases.{NamesRise};
ghost use Rattle.palm_device.specs.Bounds.{IsBoundedDatabase};
ghost use Rattle.backup_files.specs.BackupFolders.{HoldsBackups};
ghost use Rattle.cmd_status.specs.Opening.{Opens, OpensAtMost};
ghost use Rattle.cmd_files.specs.Restores.{BackupsRefuse, BackupsShow};
ghost use Rattle.cmd_files.specs.Views.{backups_in};

use backup_files::read_backups;
use cmd_status::Status;
use hs_folders::{Folder, FolderOpenFault};
use pdb_values::Database;
use std::alloc::Global;
use trace_text::End;

/// A folder of backups, and the databases of its files in byte order of their names.
#[derive(Drop)]
pub struct Backups<D> {
    pub databases: Vec<Database>,
    pub folder: D,
}

/// Opens the folder of backups at this path, and reads the databases of its files. A refusal hands it back.
pub fn open_backups<D: Folder>(
    alloc: Global,
    folder: D,
    path: &str,
) -> Result<Backups<D>, (Status, D)>
    ensures held { IfOk result (λ backups. IfSome (D.contents folder) (λ held.
        HoldsBackups held backups.databases.items)) }
    ensures order { IfOk result (λ backups. NamesRise backups.databases.items) }
    ensures bounded { IfOk result (λ backups.
        AllByRecursion IsBoundedDatabase backups.databases.items) }
    ensures refused { IfErr result (λ refused. BackupsRefuse (D.contents folder) refused.0) }
    ensures failed { IfErr result (λ refused. refused.0 ≡ Status.DesktopFolder
        → Rose (D.faults folder) (D.faults refused.1)) }
    ensures in_use { IfErr result (λ refused. refused.0 ≡ Status.InUse End.Desktop
        → Rose (D.faults folder) (D.faults refused.1)) }

    ensures contents { D.contents (backups_in result) ≡ D.contents folder }
    ensures moments { D.moments (backups_in result) ≡ D.moments folder }
    ensures later { D.faults folder ≤ D.faults (backups_in result) }
    ensures opened { OnOk result (Opens path.now (D.paths folder) (D.paths (backups_in result))) }
    ensures path { OpensAtMost path.now (D.paths folder) (D.paths (backups_in result)) }
{
    let mut folder = folder;
    match folder.open(path) {
        Ok(()) => read_opened(alloc, folder),
        Err(FolderOpenFault::InUse) => Err((Status::InUse(End::Desktop), folder)),
        Err(FolderOpenFault::Failed) => Err((Status::DesktopFolder, folder)),
        Err(FolderOpenFault::NoMemory) => Err((Status::NoMemory, folder)),
    }
}

// Reads the databases of the files of a folder that is open.
fn read_opened<D: Folder>(alloc: Global, folder: D) -> Result<Backups<D>, (Status, D)>
    ensures held { IfOk result (λ backups. IfSome (D.contents folder) (λ held.
        HoldsBackups held backups.databases.items)) }
    ensures order { IfOk result (λ backups. NamesRise backups.databases.items) }
    ensures bounded { IfOk result (λ backups.
        AllByRecursion IsBoundedDatabase backups.databases.items) }
    ensures refused { IfErr result (λ refused. BackupsShow (D.contents folder) refused.0) }
    ensures failed { IfErr result (λ refused. refused.0 ≡ Status.DesktopFolder
        → Rose (D.faults folder) (D.faults refused.1)) }
    ensures free { IfErr result (λ refused. refused.0 ≢ Status.InUse End.Desktop) }

    ensures contents { D.contents (backups_in result) ≡ D.contents folder }
    ensures moments { D.moments (backups_in result) ≡ D.moments folder }
    ensures later { D.faults folder ≤ D.faults (backups_in result) }
    ensures paths { D.paths (backups_in result) ≡ D.paths folder }
{
    let mut folder = folder;
    match read_backups(alloc, &mut folder) {
        Ok(databases) => Ok(Backups { databases, folder }),
        Err(fault) => Err((Status::from(fault), folder)),
    }
}
