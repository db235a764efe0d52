// A file of the system that is being written, and takes the place of another one with its first
// bytes.
use crate::replacement::replaced_mode;
use crate::system_files::locked;
use std::alloc::Global;
use std::fs::{File, Metadata, OpenOptions, Permissions};
use std::io::{ErrorKind, Write};
use std::os::unix::fs::PermissionsExt;
use std::path::Path;
use std::rt::Files;
use std::{fs, io};

// What the name of the file ends in until its bytes are on the disk.
const DRAFT: &str = ".hotsync-tmp";

// An open file. Until something was written it stands beside its place, and is locked there.
#[derive(Drop)]
pub(crate) struct Draft {
    file: File,
    path: String,
    beside: Option<String>,
}

impl Draft {
    // Makes the file, beside the place that it is to have. What stands at either and is no file is
    // refused unopened, beside it a link too, so that none that was planted there is written
    // through; and so is a draft that somebody else is writing.
    pub(crate) fn create<R: Files<File = File>>(
        rt: &R,
        alloc: Global,
        path: &str,
    ) -> io::Result<Draft> {
        let beside = format!(in alloc; "{path}{DRAFT}")?;
        check_file(fs::metadata(rt, path))?;
        check_file(fs::symlink_metadata(rt, beside.as_str()))?;
        let mut how = OpenOptions::new();
        how.write(true);
        how.create(true);
        let file = locked(how.open(rt, beside.as_str())?)?;
        file.set_len(0)?;
        Ok(Draft {
            file,
            path: String::from_str(alloc, path)?,
            beside: Some(beside),
        })
    }

    // Writes the bytes. The first ones are on the disk before the file takes its place; where that
    // fails, nothing stays of it, and what stood there does.
    pub(crate) fn write<R: Files>(&mut self, rt: &R, bytes: &[u8]) -> io::Result<()> {
        let Some(beside) = self.beside.take() else {
            return self.file.write_all(bytes);
        };
        match self.put(rt, &beside, bytes) {
            Ok(()) => Ok(()),
            Err(error) => {
                let _ = fs::remove_file(rt, beside);
                Err(error)
            }
        }
    }

    fn put<R: Files>(&mut self, rt: &R, beside: &str, bytes: &[u8]) -> io::Result<()> {
        self.file.write_all(bytes)?;
        if let Some(mode) = replaced_mode(rt, Path::new(&self.path)) {
            let _ = self.file.set_permissions(Permissions::from_mode(mode));
        }
        self.file.sync_all()?;
        fs::rename(rt, beside, self.path.as_str())
    }
}

// Refuses what stands somewhere and is no file.
fn check_file(found: io::Result<Metadata>) -> io::Result<()> {
    match found {
        Ok(found) if !found.is_file() => Err(io::Error::from(ErrorKind::InvalidInput)),
        _ => Ok(()),
    }
}
