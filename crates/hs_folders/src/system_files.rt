// What the file system is asked for one folder, and for a file that is read or removed.
ghost use Rattle.std.specs.Prelude.{◌≢◌, ◌≤◌, All, IfOk, IsSorted, OnOk, codes, string_bytes, vec_len};
ghost use Rattle.std.specs.String.{string_cmp};

use std::alloc::Global;
use std::fs::{DirEntry, File, OpenFile, ReadDir, TryLockError};
use std::io::ErrorKind;
use std::path::Path;
use std::rt::Files;
use std::{fs, io};

// The file that a replacement is written to before it takes the old one's name.
pub(crate) const TEMPORARY: &str = "hotsync.tmp";

// More bytes or names than these are refused.
const LIMIT: usize = 4_294_967_295;

// A folder that was opened: its path, and its lock, which lasts as long as this value.
#[derive(Drop)]
pub(crate) struct OpenedFolder {
    pub(crate) path: String,
    pub(crate) lock: File,
}

// A folder is there if its names can be read. It may be reached by a symbolic link. It is locked,
// and nothing in it changes. The answer is `WouldBlock` where somebody else holds the lock.
pub(crate) fn open_folder<R: Files<File = File>>(
    rt: &R,
    alloc: Global,
    folder: &str,
) -> io::Result<OpenedFolder> {
    let _names = fs::read_dir(&(rt, alloc), folder)?;
    let path = String::from_str(alloc, folder)?;
    let lock = locked(fs::open(rt, folder)?)?;
    Ok(OpenedFolder { path, lock })
}

// Locks an open file or folder, without waiting. Where its file system knows no locks, it goes on
// without one.
pub(crate) fn locked(file: File) -> io::Result<File> {
    match file.try_lock() {
        Err(TryLockError::WouldBlock) => Err(io::Error::from(ErrorKind::WouldBlock)),
        Ok(()) | Err(TryLockError::Error(_)) => Ok(file),
    }
}

// The names in byte order, without that of the temporary file.
pub(crate) fn list_names<R: Files>(rt: &R, alloc: Global, folder: &str) -> io::Result<Vec<String>>
    ensures sorted { IfOk result (λ names. IsSorted string_cmp names.items) }
    ensures no_temporary { IfOk result (λ names. All (λ name.
        string_bytes name ≢ codes "hotsync.tmp") names.items) }
    ensures few { IfOk result (λ names. vec_len names ≤ 4_294_967_295) }
{
    let mut names = Vec::new(alloc);
    add_entries(alloc, &mut names, fs::read_dir(&(rt, alloc), folder)?)?;
    names.sort()?;
    Ok(names)
}

// Adds the names of all entries, but for that of the temporary file and those that are no text.
fn add_entries<R: Files>(
    alloc: Global,
    names: &mut Vec<String>,
    entries: ReadDir<(&R, Global)>,
) -> io::Result<()>
    requires no_temporary { All (λ name. string_bytes name ≢ codes "hotsync.tmp") names.old.items }
    requires few { vec_len names.old ≤ 4_294_967_295 }
    ensures no_temporary { All (λ name. string_bytes name ≢ codes "hotsync.tmp") names.new.items }
    ensures few { OnOk result (vec_len names.new ≤ 4_294_967_295) }
{
    for entry in entries {
        add_entry(alloc, names, entry)?;
    }
    Ok(())
}

// Adds the name of an entry, unless it is that of the temporary file or no text.
fn add_entry<R: Files>(
    alloc: Global,
    names: &mut Vec<String>,
    entry: io::Result<DirEntry<(&R, Global)>>,
) -> io::Result<()>
    requires no_temporary { All (λ name. string_bytes name ≢ codes "hotsync.tmp") names.old.items }
    requires few { vec_len names.old ≤ 4_294_967_295 }
    ensures no_temporary { All (λ name. string_bytes name ≢ codes "hotsync.tmp") names.new.items }
    ensures few { OnOk result (vec_len names.new ≤ 4_294_967_295) }
{
    match entry {
        Ok(entry) => add_name(alloc, names, entry.file_name()),
        Err(error) if error.kind() == ErrorKind::InvalidFilename => Ok(()),
        Err(error) => Err(error),
    }
}

// Adds a name, unless it is that of the temporary file.
fn add_name(alloc: Global, names: &mut Vec<String>, name: &str) -> io::Result<()>
    requires no_temporary { All (λ name. string_bytes name ≢ codes "hotsync.tmp") names.old.items }
    requires few { vec_len names.old ≤ 4_294_967_295 }
    ensures no_temporary { All (λ name. string_bytes name ≢ codes "hotsync.tmp") names.new.items }
    ensures few { OnOk result (vec_len names.new ≤ 4_294_967_295) }
{
    if name == TEMPORARY {
        return Ok(());
    }
    if names.len() == LIMIT {
        return Err(io::Error::from(ErrorKind::FileTooLarge));
    }
    names.push(String::from_str(alloc, name)?)?;
    Ok(())
}

// Opens a file to be read. A pipe or a device, which might never answer, is refused unopened.
pub(crate) fn open_file<R: Files>(rt: &R, path: &str) -> io::Result<R::File> {
    if !fs::metadata(rt, path)?.is_file() {
        return Err(io::Error::from(ErrorKind::InvalidInput));
    }
    fs::open(rt, path)
}

pub(crate) fn read_file<R: Files>(
    rt: &R,
    alloc: Global,
    folder: &str,
    name: &str,
) -> io::Result<Vec<u8>>
    ensures small { IfOk result (λ bytes. vec_len bytes ≤ 4_294_967_295) }
{
    let path = Path::new(folder).join(alloc, name)?;
    let mut bytes = Vec::new(alloc);
    io::Read::read_to_end(&mut open_file(rt, path.as_str())?, &mut bytes)?;
    if bytes.len() > LIMIT {
        return Err(io::Error::from(ErrorKind::FileTooLarge));
    }
    Ok(bytes)
}

pub(crate) fn remove_file<R: Files>(
    rt: &R,
    alloc: Global,
    folder: &str,
    name: &str,
) -> io::Result<()> {
    let path = Path::new(folder).join(alloc, name)?;
    fs::remove_file(rt, path)?;
    sync_folder(rt, folder);
    Ok(())
}

// Puts the folder's names on the disk. A system that refuses has made the change all the same, so
// that its answer is not asked for.
pub(crate) fn sync_folder<R: Files>(rt: &R, folder: &str) {
    if let Ok(folder) = fs::open(rt, folder) {
        let _ = folder.sync_all();
    }
}
