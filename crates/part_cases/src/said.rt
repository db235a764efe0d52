// Texts of what a session answered.
use conduit_rules::{SeenState, View};
use desktop_session::{RecordLent, SessionFault};
use dlp_commands::{ErrorCode, ReplyFault};
use pdb_files::read_database;
use pdb_values::{DbHead, Kind, RecordId};
use std::alloc::{AllocError, Global};
use std::fmt::Write;

/// Why a call was not done.
pub fn refused(alloc: Global, fault: SessionFault) -> Result<String, AllocError> {
    match fault {
        SessionFault::Down => String::from_str(alloc, "down"),
        SessionFault::Refused {
            function,
            code: ErrorCode(code),
        } => format!(in alloc; "refused {function:x} {code}"),
        SessionFault::OtherUser { handheld, desktop } => {
            format!(in alloc; "other user {handheld} {desktop}")
        }
        SessionFault::BadReply { function, fault } => match fault {
            ReplyFault::Wrapper(place) => {
                format!(in alloc; "bad reply {function:x}: wrapper {place}")
            }
            ReplyFault::Function(byte) => {
                format!(in alloc; "bad reply {function:x}: function {byte:x}")
            }
            ReplyFault::Argument => format!(in alloc; "bad reply {function:x}: argument"),
            _ => format!(in alloc; "bad reply {function:x}"),
        },
        SessionFault::TooManyUsers => String::from_str(alloc, "too many users"),
        SessionFault::NoMemory => String::from_str(alloc, "no memory"),
    }
}

/// What was answered in a word, or why it was not done.
pub fn done(alloc: Global, answer: Result<&str, SessionFault>) -> Result<String, AllocError> {
    match answer {
        Ok(word) => String::from_str(alloc, word),
        Err(fault) => refused(alloc, fault),
    }
}

/// How many databases, and the names of the first and the last one in hexadecimal.
pub fn heads(alloc: Global, heads: &[DbHead]) -> Result<String, AllocError> {
    let mut said = format!(in alloc; "{} databases", heads.len())?;
    for head in [heads.first(), heads.last()] {
        if let Some(head) = head {
            let name = hex::encode(alloc, head.name.as_bytes())?;
            write!(said, " {name}.{:x}", head.attributes)?;
        }
    }
    Ok(said)
}

/// The numbers of ids.
pub fn ids_text(alloc: Global, ids: &[RecordId]) -> Result<String, AllocError> {
    let mut said = String::from_str(alloc, "ids")?;
    for id in ids {
        write!(said, " {}", id.number())?;
    }
    Ok(said)
}

/// A record: its id, kind, category, bits and bytes.
pub fn record_text(alloc: Global, lent: &RecordLent<'_>) -> Result<String, AllocError> {
    let kind = match lent.kind() {
        Kind::Live => "live",
        Kind::Archived => "archived",
        Kind::Deleted => "deleted",
    };
    let dirty = if lent.dirty() { " dirty" } else { "" };
    let secret = if lent.secret() { " secret" } else { "" };
    let bytes = hex::encode(alloc, lent.bytes())?;
    format!(in alloc;
        "record {} {kind} {}{dirty}{secret} {bytes}.",
        lent.id().number(),
        lent.category().number()
    )
}

/// A record, none, or why none was read.
pub fn found(
    alloc: Global,
    answer: Result<Option<RecordLent<'_>>, SessionFault>,
) -> Result<String, AllocError> {
    match answer {
        Ok(Some(lent)) => record_text(alloc, &lent),
        Ok(None) => String::from_str(alloc, "none"),
        Err(fault) => refused(alloc, fault),
    }
}

/// A block, none, or why none was read.
pub fn block(
    alloc: Global,
    answer: Result<Option<Vec<u8>>, SessionFault>,
) -> Result<String, AllocError> {
    match answer {
        Ok(Some(bytes)) => {
            let text = hex::encode(alloc, &bytes)?;
            format!(in alloc; "block {text}.")
        }
        Ok(None) => String::from_str(alloc, "none"),
        Err(fault) => refused(alloc, fault),
    }
}

/// The entries of a view.
pub fn view_text(alloc: Global, view: &View) -> Result<String, AllocError> {
    let mut said = format!(in alloc; "view of {}", view.seen.len())?;
    for seen in &view.seen {
        let state = match seen.state {
            SeenState::Live => "live",
            SeenState::Archived => "archived",
            SeenState::Deleted => "deleted",
            SeenState::Unread => "unread",
        };
        let category = seen.content.category().number();
        let secret = if seen.content.secret() { " secret" } else { "" };
        let bytes = hex::encode(alloc, seen.content.bytes())?;
        write!(
            said,
            " | {} {state} {category}{secret} {bytes}.",
            seen.id.number()
        )?;
    }
    Ok(said)
}

/// The records of a file.
pub fn records_text(alloc: Global, bytes: &[u8]) -> Result<String, AllocError> {
    let Ok(database) = read_database(alloc, bytes) else {
        return String::from_str(alloc, "no database");
    };
    let records = database.records();
    let mut said = format!(in alloc; "{} records", records.len())?;
    for record in records {
        let deleted = if record.deleted { " deleted" } else { "" };
        let dirty = if record.dirty { " dirty" } else { "" };
        let category = record.content.category().number();
        let secret = if record.content.secret() {
            " secret"
        } else {
            ""
        };
        let bytes = hex::encode(alloc, record.content.bytes())?;
        let id = record.id.number();
        write!(said, " | {id}{deleted}{dirty} {category}{secret} {bytes}.")?;
    }
    Ok(said)
}
