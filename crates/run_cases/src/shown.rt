// Texts of what a call did.
use case_words::number_in;
use hotsync_run::{Report, SessionEnd};
use hs_folders::{Folder, FolderFault, MemFolder};
use std::alloc::{AllocError, Global};
use std::fmt::Write;
use std::io;

/// The files of a folder: their names, and their bytes where these are asked for.
pub fn files_text(
    alloc: Global,
    side: &str,
    folder: &mut MemFolder,
    whole: bool,
) -> io::Result<String> {
    let mut shown = String::new(alloc);
    for name in folder.list(alloc).map_err(failed)? {
        if whole {
            let bytes = folder.read(alloc, &name).map_err(failed)?;
            let hex = hex::encode(alloc, &bytes)?;
            write!(shown, "{side} {name} {hex}\n")?;
        } else {
            write!(shown, "{side} {name}\n")?;
        }
    }
    Ok(shown)
}

fn failed(_: FolderFault) -> io::Error {
    io::Error::from(io::ErrorKind::Other)
}

/// The lines of a trace: all of them, or those of these numbers.
pub fn trace_lines(alloc: Global, trace: &[u8], numbers: &str) -> Result<String, AllocError> {
    let text = String::from_utf8_lossy(alloc, trace)?;
    if numbers.is_empty() {
        return Ok(text);
    }
    let lines: Vec<&str> = text.lines().collect(alloc)?;
    let mut shown = String::new(alloc);
    for number in numbers.split(' ') {
        let place = (number_in(number) as usize).wrapping_sub(1);
        shown.push_str(lines.get(place).copied().unwrap_or("no such frame"))?;
        shown.push('\n')?;
    }
    Ok(shown)
}

/// These bytes in hexadecimal, on a line.
pub fn hex_line(alloc: Global, bytes: &[u8]) -> Result<String, AllocError> {
    let mut line = hex::encode(alloc, bytes)?;
    line.push('\n')?;
    Ok(line)
}

/// What a session did, in numbers. Nothing where none began.
pub fn report_text(alloc: Global, report: &Report) -> Result<String, AllocError> {
    let end = match report.end {
        SessionEnd::NotStarted => return Ok(String::new(alloc)),
        SessionEnd::Ended => "ended",
        SessionEnd::Stopped => "stopped",
    };
    let mut text = format!(in alloc;
        "{end}, issued {}, performed {}, replies {}, writes {}, frames {}",
        report.issued.len(),
        report.performed.len(),
        report.replies.len(),
        report.writes,
        report.frames.len()
    )?;
    if let Some(tally) = report.to_handheld {
        write!(text, ", to handheld {} {}", tally.bytes(), tally.packets())?;
    }
    if let Some(tally) = report.to_desktop {
        write!(text, ", to desktop {} {}", tally.bytes(), tally.packets())?;
    }
    text.push('\n')?;
    push_ids(&mut text, report)?;
    push_faulted(&mut text, report)?;
    Ok(text)
}

// A line of the ids that new records got, where there are some.
fn push_ids(text: &mut String, report: &Report) -> Result<(), AllocError> {
    if report.given.is_empty() {
        return Ok(());
    }
    text.push_str("given")?;
    for id in report.given.iter() {
        write!(text, " {}", id.number())?;
    }
    text.push('\n')
}

// A line of the frames that were harmed, where there are some.
fn push_faulted(text: &mut String, report: &Report) -> Result<(), AllocError> {
    if report.faulted.is_empty() {
        return Ok(());
    }
    text.push_str("faulted")?;
    for frame in report.faulted.iter() {
        write!(text, " {frame}")?;
    }
    text.push('\n')
}
