// Hints on paths that the system refused, on standard error: which one it was, and the system's reason.
use cmd_status::{Status, push_name};
use run_clap::Command;
use std::fs;
use std::fs::File;
use std::io::ErrorKind;
use std::rt::Files;

/// Says why what the words name could not be opened, where the system tells it.
pub fn hint_paths<R: Files<File = File> + Eprint + AllocGlobal>(
    rt: &R,
    command: &Command<'_>,
    status: &Status,
) {
    match status {
        Status::SourceRead => hint_file(rt, source_of(command)),
        Status::HandheldFolder => hint_folder(rt, handheld_of(command)),
        Status::DesktopFolder => hint_folder(rt, desktop_of(command)),
        Status::TraceWrite => hint_file(rt, trace_of(command)),
        _ => {}
    }
}

// The file that is read.
fn source_of<'a>(command: &Command<'a>) -> Option<&'a str> {
    match command {
        Command::Look(words) => Some(words.file),
        Command::Run(words) | Command::DryRun(words) => words.script,
        Command::Install(words) => Some(words.other),
        Command::Backup(words) | Command::Restore(words) | Command::Categories(words) => {
            words.script
        }
        Command::Device(words) => Some(words.input),
        Command::Packet(_) | Command::Make(_) | Command::Help(_) => None,
    }
}

fn handheld_of<'a>(command: &Command<'a>) -> Option<&'a str> {
    match command {
        Command::Run(words) | Command::DryRun(words) => Some(words.handheld),
        Command::Install(words)
        | Command::Backup(words)
        | Command::Restore(words)
        | Command::Categories(words) => Some(words.handheld),
        Command::Device(words) => Some(words.handheld),
        _ => None,
    }
}

fn desktop_of<'a>(command: &Command<'a>) -> Option<&'a str> {
    match command {
        Command::Run(words) | Command::DryRun(words) => Some(words.desktop),
        Command::Backup(words) | Command::Restore(words) | Command::Categories(words) => {
            Some(words.other)
        }
        _ => None,
    }
}

fn trace_of<'a>(command: &Command<'a>) -> Option<&'a str> {
    match command {
        Command::Run(words) | Command::DryRun(words) => words.trace,
        Command::Install(words)
        | Command::Backup(words)
        | Command::Restore(words)
        | Command::Categories(words) => words.trace,
        Command::Device(words) => Some(words.output),
        _ => None,
    }
}

fn hint_file<R: Files<File = File> + Eprint + AllocGlobal>(rt: &R, path: Option<&str>) {
    if let Some(path) = path {
        hint(rt, path, file_fault(rt, path));
    }
}

fn hint_folder<R: Files<File = File> + Eprint + AllocGlobal>(rt: &R, path: Option<&str>) {
    if let Some(path) = path {
        hint(rt, path, folder_fault(rt, path));
    }
}

// Says the path and the reason, where there is one.
fn hint<R: Eprint + AllocGlobal>(rt: &R, path: &str, reason: Option<&str>) {
    let Some(reason) = reason else {
        return;
    };
    let mut name = String::new(rt.alloc());
    if push_name(&mut name, path).is_ok() {
        let _ = eprintln!(rt; "hint: {name}: {reason}");
    }
}

// Why no file can be read at a path.
fn file_fault<R: Files<File = File>>(rt: &R, path: &str) -> Option<&'static str> {
    match fs::metadata(rt, path) {
        Ok(found) if found.is_dir() => Some("it is a folder"),
        Ok(found) if !found.is_file() => Some("it is no file"),
        Ok(_) => opened(rt, path),
        Err(error) => reason(error.kind()),
    }
}

// Why no folder can be read at a path.
fn folder_fault<R: Files<File = File>>(rt: &R, path: &str) -> Option<&'static str> {
    match fs::metadata(rt, path) {
        Ok(found) if !found.is_dir() => Some("it is no folder"),
        Ok(_) => opened(rt, path),
        Err(error) => reason(error.kind()),
    }
}

fn opened<R: Files<File = File>>(rt: &R, path: &str) -> Option<&'static str> {
    match fs::open(rt, path) {
        Ok(_) => None,
        Err(error) => reason(error.kind()),
    }
}

// The system's reason in words.
fn reason(kind: ErrorKind) -> Option<&'static str> {
    match kind {
        ErrorKind::NotFound => Some("nothing is there"),
        ErrorKind::PermissionDenied => Some("permission denied"),
        ErrorKind::NotADirectory => Some("a folder of its path is none"),
        ErrorKind::FilesystemLoop => Some("its links lead in a circle"),
        ErrorKind::InvalidFilename => Some("its name is too long"),
        _ => None,
    }
}
