// The packets in a stream of bytes as text.
ghost use Rattle.std.specs.Prelude.{◌≡◌, ◌++◌, ◌∷◌, [], List, ℕ, IfOk, OnOk, length, map, string_bytes};
ghost use Rattle.std.specs.List.{AllZip};
ghost use Rattle.slp_frames.specs.PacketScan.{scan};
ghost use Rattle.slp_frames.specs.Streams.{IsDrained};
ghost use Rattle.trace_text.specs.PacketLines.{ShowsPacket};
ghost use Rattle.trace_text.specs.PacketLists.{IsShown, ShowsPackets, count_line, lines_text};

use crate::packet::show_packet;
use slp_frames::SlpReader;
use std::alloc::{AllocError, Global};
use std::fmt::Write;

/// What a stream of bytes holds, in words: a line for each of its packets, in order, and then `packets K`.
pub fn show_packets(alloc: Global, bytes: &[u8]) -> Result<String, AllocError>
    ensures { IfOk result (λ text. ShowsPackets (scan bytes.now) (string_bytes text)) }
{
    let lines = packet_lines(alloc, bytes)?;
    let text = joined(alloc, &lines)?;
    Ok(text)
}

// A line for each packet of a stream.
fn packet_lines(alloc: Global, bytes: &[u8]) -> Result<Vec<String>, AllocError>
    ensures { IfOk result (λ lines. AllZip ShowsPacket (scan bytes.now)
        (map string_bytes lines.items)) }
{
    let mut lines = Vec::new(alloc);
    let mut reader = SlpReader::new();
    let mut rest = bytes;
    while !rest.is_empty() {
        let count = reader.feed(rest);
        rest = &rest[count..];
        push_held(alloc, &mut reader, &mut lines)?;
    }
    Ok(lines)
}

// A line for each packet that the reader holds.
fn push_held(
    alloc: Global,
    reader: &mut SlpReader,
    lines: &mut Vec<String>,
) -> Result<(), AllocError>
    ensures shown { OnOk result ((taken : List ℕ) →
        IsShown taken (map string_bytes lines.old.items) reader.old.held
        → IsShown taken (map string_bytes lines.new.items) reader.new.held) }
    ensures drained { OnOk result (IsDrained reader.new.held) }
{
    while let Some(packet) = reader.next() {
        let line = show_packet(alloc, &packet)?;
        lines.push(line)?;
    }
    Ok(())
}

// The lines, each with its end, and then how many there are.
fn joined(alloc: Global, lines: &[String]) -> Result<String, AllocError>
    ensures { IfOk result (λ text. string_bytes text ≡ lines_text (map string_bytes lines.now)
        ++ count_line (length lines.now)) }
{
    let mut text = String::new(alloc);
    for line in lines {
        text.push_str(line.as_str())?;
        text.push_str("\n")?;
    }
    let count = lines.len();
    text.push_str("packets ")?;
    write!(text, "{count}\n")?;
    Ok(text)
}
