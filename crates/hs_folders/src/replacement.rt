// A file of the system that takes the place of another one, whole.
use crate::system_files::{TEMPORARY, sync_folder};
use std::alloc::Global;
use std::fs::{DirEntry, OpenFile, OpenOptions, Permissions};
use std::io::{ErrorKind, Write};
use std::os::unix::fs::{OpenOptionsExt, PermissionsExt};
use std::path::Path;
use std::rt::Files;
use std::{fs, io};

// The permission bits of a mode.
const PERMISSIONS: u32 = 0o777;

// A file that its owner alone may read and write, and one of which the system takes away what its
// user wants taken away (the umask).
const PRIVATE: u32 = 0o600;

const USUAL: u32 = 0o666;

// The bytes are on the disk before the file takes its name. Where that fails, nothing stays of it.
pub(crate) fn write_file<R: Files>(
    rt: &R,
    alloc: Global,
    folder: &str,
    name: &str,
    bytes: &[u8],
) -> io::Result<()> {
    let temporary = Path::new(folder).join(alloc, TEMPORARY)?;
    let path = Path::new(folder).join(alloc, name)?;
    let written = match replaced_mode(rt, path.as_path()) {
        Some(mode) => write_like(rt, temporary.as_path(), mode, bytes),
        None => {
            let mode = new_mode(rt, alloc, folder)?;
            write_new(rt, temporary.as_path(), mode, bytes)
        }
    };
    match written.and_then(|()| fs::rename(rt, temporary.as_path(), path.as_path())) {
        Ok(()) => {
            sync_folder(rt, folder);
            Ok(())
        }
        Err(error) => {
            let _ = fs::remove_file(rt, temporary);
            Err(error)
        }
    }
}

// The permissions of the file that stands at this path, if one does.
pub(crate) fn replaced_mode<R: Files>(rt: &R, path: Path<'_>) -> Option<u32> {
    match fs::metadata(rt, path) {
        Ok(found) if found.is_file() => Some(found.permissions().mode() & PERMISSIONS),
        _ => None,
    }
}

// The mode of a new file of this folder: of what a group and all others may do, what they may do with
// each of its files. A name that is not UTF-8 is passed over, as in the list of names.
fn new_mode<R: Files>(rt: &R, alloc: Global, folder: &str) -> io::Result<u32> {
    let mut mode = USUAL;
    for entry in fs::read_dir(&(rt, alloc), folder)? {
        mode &= PRIVATE | entry_mode(rt, alloc, folder, entry)?;
    }
    Ok(mode)
}

// What may be done with an entry of the folder; all, where it is no file.
fn entry_mode<R: Files>(
    rt: &R,
    alloc: Global,
    folder: &str,
    entry: io::Result<DirEntry<(&R, Global)>>,
) -> io::Result<u32> {
    match entry {
        Ok(entry) => {
            let path = Path::new(folder).join(alloc, entry.file_name())?;
            Ok(replaced_mode(rt, path.as_path()).unwrap_or(USUAL))
        }
        Err(error) if error.kind() == ErrorKind::InvalidFilename => Ok(USUAL),
        Err(error) => Err(error),
    }
}

// Writes a file with these permissions, where the file system has any: nobody else reads it before.
fn write_like<R: Files>(rt: &R, path: Path<'_>, mode: u32, bytes: &[u8]) -> io::Result<()> {
    let mut file = create_anew(rt, path, PRIVATE)?;
    file.write_all(bytes)?;
    let _ = file.set_permissions(Permissions::from_mode(mode));
    file.sync_all()
}

fn write_new<R: Files>(rt: &R, path: Path<'_>, mode: u32, bytes: &[u8]) -> io::Result<()> {
    let mut file = create_anew(rt, path, mode)?;
    file.write_all(bytes)?;
    file.sync_all()
}

// What stands there goes first, be it a link. The new file is made only where nothing stands then.
fn create_anew<R: Files>(rt: &R, path: Path<'_>, mode: u32) -> io::Result<R::File> {
    match fs::remove_file(rt, path) {
        Err(error) if error.kind() != ErrorKind::NotFound => Err(error),
        _ => {
            let mut how = OpenOptions::new();
            how.write(true);
            how.create_new(true);
            how.mode(mode);
            how.open(rt, path)
        }
    }
}
