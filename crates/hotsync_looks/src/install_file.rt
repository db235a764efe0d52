// The database of a file that is to be installed.
ghost use Rattle.std.specs.Prelude.{◌≡◌, ◌≤◌, IfErr, IfOk, IfSome, IsErrOf, OnOk, false, length};
ghost use Rattle.hs_folders.specs.Causes.{Rose};
ghost use Rattle.palm_device.specs.Bounds.{IsBoundedDatabase};
ghost use Rattle.pdb_values.specs.Heads.{is_read_only};
ghost use Rattle.hotsync_looks.specs.InstallFiles.{FileRefuses, FileShows, IsFileRefusal, IsInstallFile};
ghost use Rattle.cmd_status.specs.Sources.{source_limit};
ghost use Rattle.cmd_status.specs.Opening.{Opens, OpensAtMost};

use crate::bad_file::fault_status;
use cmd_status::{FileSide, Status, read_source};
use hs_folders::Source;
use pdb_files::read_database;
use pdb_values::Database;
use std::alloc::Global;

/// The database of all bytes of the source at this path, which may be written to a handheld.
pub fn read_install_file<S: Source>(
    alloc: Global,
    source: &mut S,
    path: &str,
) -> Result<Database, Status>
    ensures file { IfOk result (λ database. IfSome (S.left source.old)
        (λ bytes. IsInstallFile bytes database)) }
    ensures bounded { IfOk result IsBoundedDatabase }
    ensures writable { IfOk result (λ database. is_read_only database.head.attributes ≡ false) }
    ensures shown { IfErr result (λ refusal. IfSome (S.left source.old)
        (FileShows path.now refusal)) }
    ensures refusal { IfErr result IsFileRefusal }
    ensures failed { IsErrOf result Status.SourceRead → Rose (S.faults source.old)
        (S.faults source.new) }

    ensures opened { OnOk result (Opens path.now (S.paths source.old) (S.paths source.new)) }
    ensures path { OpensAtMost path.now (S.paths source.old) (S.paths source.new) }
{
    let bytes = read_source(alloc, source, path)?;
    let database = database_in(alloc, path, &bytes)?;
    Ok(database)
}

// The database of these bytes of the file at this path.
fn database_in(alloc: Global, path: &str, bytes: &[u8]) -> Result<Database, Status>
    requires { length bytes.now ≤ source_limit }
    ensures file { IfOk result (IsInstallFile bytes.now) }
    ensures bounded { IfOk result IsBoundedDatabase }
    ensures shown { IfErr result (λ refusal. FileShows path.now refusal bytes.now) }
    ensures refusal { IfErr result IsFileRefusal }
    ensures failed { ¬ IsErrOf result Status.SourceRead }
{
    let database = match read_database(alloc, bytes) {
        Ok(database) => database,
        Err(fault) => return Err(fault_status(alloc, FileSide::Source, path, fault)),
    };
    let head = database.head();
    if head.is_read_only() {
        return Err(Status::CannotInstall(head.name.copy()));
    }
    Ok(database)
}
