// What was said and heard over a cable, as text.
ghost use Rattle.std.specs.Prelude.{◌≡◌, ◌≤◌, IfOk, length, map, string_bytes, take};
ghost use Rattle.port_link.specs.Logs.{entry_value, heard_value};
ghost use Rattle.port_run.specs.LogTexts.{bytes_line as line_of_bytes, entry_line as line_of_entry, heard_text as text_of_heard, log_text as text_of_log};

use arrayvec::ArrayVec;
use port_link::{Entry, HeardPacket};
use slp_frames::{MAX_BODY, MAX_PACKET, Packet, write_packet};
use std::alloc::{AllocError, Global};

/// A line for each entry: its number from 1 on, the letter of the end that kept it with the bytes that it said, that of the
/// other one with those of a packet that came, or `silent`.
pub fn write_log(
    alloc: Global,
    own: &str,
    other: &str,
    log: &[Entry],
) -> Result<Vec<u8>, AllocError>
    ensures { IfOk result (λ text. text.items
        ≡ text_of_log own.now other.now (map entry_value log.now)) }
{
    let mut text = Vec::new(alloc);
    let mut number = 1u64;
    for entry in log {
        let line = entry_line(alloc, own, other, number, entry)?;
        text.extend_from_slice(line.as_bytes())?;
        number += 1;
    }
    Ok(text)
}

// The line of an entry of this number.
fn entry_line(
    alloc: Global,
    own: &str,
    other: &str,
    number: u64,
    entry: &Entry,
) -> Result<String, AllocError>
    ensures { IfOk result (λ line. string_bytes line
        ≡ line_of_entry own.now other.now number (entry_value entry.now)) }
{
    match entry {
        Entry::Said(text) => bytes_line(alloc, number, own, text),
        Entry::Heard(packet) => bytes_line(alloc, number, other, heard_text(packet).as_slice()),
        Entry::Silent => format!(in alloc; "{number} silent\n"),
    }
}

// The line of bytes that an end said.
fn bytes_line(alloc: Global, number: u64, end: &str, bytes: &[u8]) -> Result<String, AllocError>
    ensures { IfOk result (λ line. string_bytes line ≡ line_of_bytes number end.now bytes.now) }
{
    let bytes = hex::encode(alloc, bytes)?;
    format!(in alloc; "{number} {end} {bytes}\n")
}

// The bytes of a packet that came.
fn heard_text(packet: &HeardPacket) -> ArrayVec<u8, MAX_PACKET>
    ensures { result.items ≡ text_of_heard (heard_value packet.now) }
{
    let mut text = ArrayVec::new();
    let packet = Packet {
        dest: packet.dest,
        source: packet.source,
        kind: packet.kind,
        id: packet.id,
        body: short_body(packet.body.as_slice()),
    };
    write_packet(&packet, &mut text);
    text
}

// The bytes of a body, which has no more in a packet.
fn short_body(bytes: &[u8]) -> ArrayVec<u8, MAX_BODY>
    ensures { result.items ≡ take 1028 bytes.now }
{
    match bytes.get(..MAX_BODY) {
        Some(front) => body_of(front),
        None => body_of(bytes),
    }
}

// A body with these bytes.
fn body_of(bytes: &[u8]) -> ArrayVec<u8, MAX_BODY>
    requires { length bytes.now ≤ 1028 }
    ensures { result.items ≡ bytes.now }
{
    let mut body = ArrayVec::new();
    body.try_extend_from_slice(bytes).unwrap();
    body
}
