// A first run over two folders that look as if they were named the wrong way round. Nothing is promised of what is said of it.
use run_clap::{Command, RunWords, read_command};
use std::alloc::Global;
use std::fs::{DirEntry, File};
use std::io::ErrorKind;
use std::path::Path;
use std::rt::Files;
use std::{fs, io};

/// Whether words ask for a first run over a handheld's folder without a database and a desktop's that has some.
pub fn looks_swapped<R: Files<File = File> + AllocGlobal>(
    rt: &R,
    now: Option<u32>,
    words: &[String],
) -> bool {
    match read_command(rt.alloc(), now, words) {
        Ok(Command::Run(run) | Command::DryRun(run)) => is_swapped(rt, rt.alloc(), &run),
        _ => false,
    }
}

/// Says so.
pub fn hint_swapped<R: Eprint>(rt: &R) {
    let _ = eprintln!(rt;
        "hint: HANDHELD had no database and DESKTOP had some: the handheld's folder is named first"
    );
}

fn is_swapped<R: Files<File = File>>(rt: &R, alloc: Global, run: &RunWords<'_>) -> bool {
    is_missing(rt, alloc, run.handheld, "device.inf")
        && is_missing(rt, alloc, run.desktop, "desktop.inf")
        && matches!(has_database(rt, alloc, run.handheld), Ok(false))
        && matches!(has_database(rt, alloc, run.desktop), Ok(true))
}

fn is_missing<R: Files<File = File>>(rt: &R, alloc: Global, folder: &str, name: &str) -> bool {
    let Ok(path) = Path::new(folder).join(alloc, name) else {
        return false;
    };
    match fs::metadata(rt, path.as_path()) {
        Ok(_) => false,
        Err(error) => error.kind() == ErrorKind::NotFound,
    }
}

fn has_database<R: Files>(rt: &R, alloc: Global, folder: &str) -> io::Result<bool> {
    for entry in fs::read_dir(&(rt, alloc), folder)? {
        if is_database(entry)? {
            return Ok(true);
        }
    }
    Ok(false)
}

// Whether an entry is named as a database is.
fn is_database<R: Files>(entry: io::Result<DirEntry<(&R, Global)>>) -> io::Result<bool> {
    match entry {
        Ok(entry) => {
            let name = entry.file_name();
            Ok(name.ends_with(".pdb") || name.ends_with(".prc"))
        }
        Err(error) if error.kind() == ErrorKind::InvalidFilename => Ok(false),
        Err(error) => Err(error),
    }
}
