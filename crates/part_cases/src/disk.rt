// A folder, a source and sinks of the system, and what others do beside them.
use case_words::{bytes_at, number_at, word};
use hs_folders::{
    DirFolder, FileSink, FileSource, Folder, FolderFault, FolderOpenFault, Sink, Source, StdoutSink,
};
use std::alloc::{AllocError, Global};
use std::fs::Permissions;
use std::io::{PipeReader, PipeWriter};
use std::os::fd::AsRawFd;
use std::os::unix::fs::{PermissionsExt, symlink};
use std::rt::Files;
use std::{fs, io};

/// One of each, one folder more, and the last pipe, which stays open.
#[derive(Drop)]
pub struct Disk<'r> {
    rt: &'r HostRuntime,
    alloc: Global,
    folder: DirFolder<'r, HostRuntime>,
    other: DirFolder<'r, HostRuntime>,
    source: FileSource<'r, HostRuntime>,
    sink: FileSink<'r, HostRuntime>,
    stdout: StdoutSink<'r, HostRuntime>,
    pipe: Option<(PipeReader, PipeWriter)>,
}

impl<'r> Disk<'r> {
    pub fn new(rt: &'r HostRuntime, alloc: Global) -> Disk<'r> {
        Disk {
            rt,
            alloc,
            folder: DirFolder::new(rt, alloc),
            other: DirFolder::new(rt, alloc),
            source: FileSource::new(rt),
            sink: FileSink::new(rt, alloc),
            stdout: StdoutSink::new(rt),
            pipe: None,
        }
    }

    /// Does what a line asks for.
    pub fn obey(&mut self, words: &[&str]) -> Result<String, AllocError> {
        let (rt, alloc) = (self.rt, self.alloc);
        let call = words.get(1..).unwrap_or(words);
        match word(words, 0) {
            "folder" => ask_folder(alloc, &mut self.folder, call),
            "other" => ask_folder(alloc, &mut self.other, call),
            "source" => ask_source(alloc, &mut self.source, call),
            "sink" => ask_sink(alloc, &mut self.sink, call),
            "stdout" => ask_sink(alloc, &mut self.stdout, call),
            "stands" => stands(rt, alloc, word(words, 1)),
            "mode" => match fs::metadata(rt, word(words, 1)) {
                Ok(found) => format!(in alloc; "mode {:o}", found.permissions().mode() & 0o777),
                Err(_) => String::from_str(alloc, "nothing"),
            },
            "new" => {
                *self = Disk::new(rt, alloc);
                String::from_str(alloc, "new")
            }
            "pipe" => {
                self.pipe = linked_pipe(rt, alloc, call).ok();
                String::from_str(
                    alloc,
                    if self.pipe.is_some() {
                        "done"
                    } else {
                        "failed"
                    },
                )
            }
            _ => beside(rt, alloc, words),
        }
    }
}

// What a folder answers to a call.
fn ask_folder(
    alloc: Global,
    folder: &mut DirFolder<HostRuntime>,
    words: &[&str],
) -> Result<String, AllocError> {
    let name = name_at(alloc, words, 1)?;
    let outcome = match word(words, 0) {
        "replace" => folder.replace(&name, &bytes_at(alloc, words, 2)),
        "remove" => folder.remove(&name),
        "read" => match folder.read(alloc, &name) {
            Ok(bytes) => return shown(alloc, &bytes),
            Err(fault) => Err(fault),
        },
        "open" => match folder.open(&name) {
            Ok(()) => Ok(()),
            Err(FolderOpenFault::InUse) => return String::from_str(alloc, "in use"),
            Err(_) => Err(FolderFault::Failed),
        },
        how => match folder.list(alloc) {
            Ok(names) if how == "some" => return format!(in alloc; "some {}", !names.is_empty()),
            Ok(names) => {
                let names = names.join(alloc, " / ")?;
                return format!(in alloc; "names {names}");
            }
            Err(fault) => Err(fault),
        },
    };
    let said = match outcome {
        Ok(()) => "ok",
        Err(FolderFault::Missing) => "missing",
        Err(_) => "failed",
    };
    String::from_str(alloc, said)
}

// What a source answers to a call. It reads into a room of so many bytes, from 1 to 64.
fn ask_source(
    alloc: Global,
    source: &mut FileSource<HostRuntime>,
    words: &[&str],
) -> Result<String, AllocError> {
    let mut room = [0u8; 64];
    let length = number_at(words, 1).clamp(1, 64) as usize;
    let said = match word(words, 0) {
        "open" if source.open(word(words, 1)).is_ok() => "ok",
        "open" => "failed",
        _ => match source.read(&mut room[..length]) {
            Ok(count) => return shown(alloc, &room[..count]),
            Err(_) => "failed",
        },
    };
    String::from_str(alloc, said)
}

// What a sink answers to a call.
fn ask_sink<S: Sink>(alloc: Global, sink: &mut S, words: &[&str]) -> Result<String, AllocError> {
    let outcome = match word(words, 0) {
        "open" => sink.open(word(words, 1)),
        _ => sink.write_all(&bytes_at(alloc, words, 1)),
    };
    String::from_str(alloc, if outcome.is_ok() { "ok" } else { "failed" })
}

// The name at this place, in which `~` stands for a space and `^` for a zero byte. `-` is the empty one.
fn name_at(alloc: Global, words: &[&str], place: usize) -> Result<String, AllocError> {
    match word(words, place) {
        "-" => Ok(String::new(alloc)),
        text => text.replace(alloc, '~', " ")?.replace(alloc, '^', "\0"),
    }
}

fn shown(alloc: Global, bytes: &[u8]) -> Result<String, AllocError> {
    let text = hex::encode(alloc, bytes)?;
    format!(in alloc; "bytes {text}")
}

// A pipe, and links to the names that the system shows its ends under.
fn linked_pipe(
    rt: &HostRuntime,
    alloc: Global,
    words: &[&str],
) -> io::Result<(PipeReader, PipeWriter)> {
    let (reader, writer) = rt.pipe()?;
    let from = format!(in alloc; "/proc/self/fd/{}", reader.as_raw_fd())?;
    symlink(rt, from.as_str(), word(words, 0))?;
    let to = format!(in alloc; "/proc/self/fd/{}", writer.as_raw_fd())?;
    symlink(rt, to.as_str(), word(words, 1))?;
    Ok((reader, writer))
}

// What is done without the folder, the source and the sinks. An empty folder is made anew: what stood there goes.
fn beside(rt: &HostRuntime, alloc: Global, words: &[&str]) -> Result<String, AllocError> {
    let path = word(words, 1);
    let is_done = match word(words, 0) {
        "chmod" => fs::set_permissions(
            rt,
            path,
            Permissions::from_mode(number_at(words, 2)),
        ).is_ok(),
        "link" => symlink(rt, path, word(words, 2)).is_ok(),
        "clear" => fs::remove_dir_all(rt, path).is_ok(),
        "make" => {
            let _ = fs::remove_dir_all(rt, path);
            fs::create_dir(rt, path).is_ok()
        }
        "write" => {
            let path = name_at(alloc, words, 1)?;
            fs::write(rt, path.as_str(), bytes_at(alloc, words, 2).as_slice()).is_ok()
        }
        _ => false,
    };
    String::from_str(alloc, if is_done { "done" } else { "failed" })
}

// The bytes of a file. Nothing stands also where a link leads to nothing.
fn stands(rt: &HostRuntime, alloc: Global, path: &str) -> Result<String, AllocError> {
    let is_file = match fs::symlink_metadata(rt, path) {
        Ok(found) => found.is_file(),
        Err(_) => false,
    };
    let said = match fs::read(rt, path) {
        Ok(bytes) if is_file => return shown(alloc, &bytes),
        _ if matches!(fs::exists(rt, path), Ok(false)) => "nothing",
        Ok(_) => "no file",
        Err(_) => "failed",
    };
    String::from_str(alloc, said)
}
