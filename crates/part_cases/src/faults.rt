// Why bytes are no arguments, no request or no reply.
use case_words::{bytes_at, word};
use dlp_args::read_args;
use dlp_replies::{ReplyFault, read_reply};
use dlp_requests::{RequestFault, read_request};
use std::alloc::{AllocError, Global};
use std::fmt::Write;

/// What a line asks for: the arguments in bytes, or why bytes are no arguments, no request, or no reply to a function.
pub fn obey(alloc: Global, words: &[&str]) -> Result<String, AllocError> {
    match word(words, 0) {
        "args" => args(alloc, words),
        "request" => match read_request(&bytes_at(alloc, words, 1)) {
            Ok(_) => String::from_str(alloc, "a request"),
            Err(RequestFault::Illegal(byte)) => format!(in alloc; "Illegal {byte:x}"),
            Err(fault) => spoken(alloc, &format!(in alloc; "{fault:?}")?),
        },
        "reply" => match read_reply(byte_at(words, 1), &bytes_at(alloc, words, 2)) {
            Ok(_) => String::from_str(alloc, "a reply"),
            Err(ReplyFault::Function(byte)) => format!(in alloc; "Function {byte:x}"),
            Err(fault) => spoken(alloc, &format!(in alloc; "{fault:?}")?),
        },
        _ => String::from_str(alloc, "no such line"),
    }
}

// So many arguments in bytes, from a place on, or why there are none.
fn args(alloc: Global, words: &[&str]) -> Result<String, AllocError> {
    let bytes = bytes_at(alloc, words, 3);
    let args = match read_args(&bytes, byte_at(words, 1), usize::from(byte_at(words, 2))) {
        Ok(args) => args,
        Err(fault) => {
            let fault = RequestFault::from(fault);
            return spoken(alloc, &format!(in alloc; "{fault:?}")?);
        }
    };
    let mut text = String::from_str(alloc, "ok")?;
    for arg in args.iter() {
        let said = hex::encode(alloc, arg.bytes)?;
        let shown = if said.is_empty() { "-" } else { said.as_str() };
        write!(text, " {:x} {shown}", arg.id)?;
    }
    Ok(text)
}

// A fault as words: its name, and its place behind a space.
fn spoken(alloc: Global, fault: &str) -> Result<String, AllocError> {
    match fault.split_once('(') {
        Some((name, place)) => format!(in alloc; "{name} {}", place.trim_end_matches(')')),
        None => String::from_str(alloc, fault),
    }
}

// The number of one byte in the word at this place, in hexadecimal, or 0.
fn byte_at(words: &[&str], place: usize) -> u8 {
    u8::from_str_radix(word(words, place), 16).unwrap_or(0)
}
