// A folder whose writes are counted for whoever looks on.
ghost use Rattle.std.specs.Prelude.{◌≡◌};

use hs_folders::{Folder, FolderFault, FolderOpenFault};
use std::alloc::Global;
use std::time::{Clock, Instant};

/// A handheld's folder that says on standard error which file is written and how many writes there were, once they take a second,
/// and again each time that they took twice as long. It tells what the folder behind it tells, and nothing is promised of what it says.
#[derive(Drop)]
pub struct CountedFolder<'r, R, F> {
    rt: &'r R,
    folder: F,
    pace: Pace,
}

// How many writes there were, and after how many seconds they are told next.
#[derive(Drop)]
struct Pace {
    begun: Option<Instant>,
    writes: u64,
    due: u64,
}

impl<'r, R: Clock + Eprint, F: Folder> CountedFolder<'r, R, F> {
    /// The folder, which says something only where that is wanted and the clock tells when it began.
    pub fn new(rt: &'r R, folder: F, is_wanted: bool) -> Self
        ensures contents { ⟦<Self as Folder>⟧.contents result ≡ F.contents folder }
        ensures moments { ⟦<Self as Folder>⟧.moments result ≡ F.moments folder }
        ensures paths { ⟦<Self as Folder>⟧.paths result ≡ F.paths folder }
        ensures faults { ⟦<Self as Folder>⟧.faults result ≡ F.faults folder }
    {
        CountedFolder {
            rt,
            folder,
            pace: Pace {
                begun: begun_now(rt, is_wanted),
                writes: 0,
                due: 1,
            },
        }
    }
}

// When the counting began, where it is wanted.
fn begun_now<R: Clock>(rt: &R, is_wanted: bool) -> Option<Instant> {
    if !is_wanted {
        return None;
    }
    match Instant::now(rt) {
        Ok(now) => Some(now),
        Err(_) => None,
    }
}

// Counts a write of this file, and tells it and how many there were where that is due.
fn count_write<R: Clock + Eprint>(rt: &R, pace: &mut Pace, name: &str) {
    let Some(begun) = pace.begun else {
        return;
    };
    pace.writes = pace.writes.saturating_add(1);
    let Ok(spent) = begun.elapsed(rt) else {
        return;
    };
    let seconds = spent.as_secs();
    if seconds < pace.due {
        return;
    }
    pace.due = seconds.saturating_mul(2);
    let writes = pace.writes;
    let _ = eprintln!(rt;
        "progress: at {name}, {writes} writes to the handheld's folder in {seconds} s"
    );
}

impl<'r, R: Clock + Eprint, F: Folder> Folder for CountedFolder<'r, R, F> {
    ghost contents = { λ counted. F.contents counted.folder };

    ghost moments = { λ counted. F.moments counted.folder };

    ghost paths = { λ counted. F.paths counted.folder };

    ghost faults = { λ counted. F.faults counted.folder };

    fn open(&mut self, path: &str) -> Result<(), FolderOpenFault> {
        self.folder.open(path)
    }

    fn list(&mut self, alloc: Global) -> Result<Vec<String>, FolderFault> {
        self.folder.list(alloc)
    }

    fn read(&mut self, alloc: Global, name: &str) -> Result<Vec<u8>, FolderFault> {
        self.folder.read(alloc, name)
    }

    fn replace(&mut self, name: &str, bytes: &[u8]) -> Result<(), FolderFault> {
        match self.folder.replace(name, bytes) {
            Ok(()) => {
                count_write(self.rt, &mut self.pace, name);
                Ok(())
            }
            Err(fault) => Err(fault),
        }
    }

    fn remove(&mut self, name: &str) -> Result<(), FolderFault> {
        self.folder.remove(name)
    }
}
