// The packets in captured bytes.
ghost use Rattle.hotsync_looks.specs.Scans.{IsScanned};
ghost use Rattle.cmd_status.specs.Told.{sink_told};
ghost use Rattle.run_words.specs.Words.{bytes_of};
ghost use Rattle.std.specs.Prelude.{◌≡◌, ◌≤◌, IfOk, string_bytes};
ghost use Rattle.slp_frames.specs.PacketScan.{scan};
ghost use Rattle.trace_text.specs.PacketLists.{ShowsPackets};

use cmd_status::{Status, print_no_memory, print_text};
use hs_folders::Sink;
use run_words::hex_digits;
use std::alloc::{AllocError, Global};
use trace_text::show_packets;

/// Prints a line for each packet in the bytes of this hexadecimal, and then their number, on `out`, or on `err` that memory
/// ran out.
pub fn print_packets<O: Sink, E: Sink>(alloc: Global, hex: &str, out: &mut O, err: &mut E) -> Status
    ensures scanned { IsScanned (bytes_of hex.now)
        (sink_told O.Sink out.old) (sink_told O.Sink out.new)
        (sink_told E.Sink err.old) (sink_told E.Sink err.new) result }
{
    match packets_text(alloc, hex) {
        Ok(text) => print_text(text.as_bytes(), out),
        Err(AllocError) => print_no_memory(err),
    }
}

// The text of the packets in the bytes of this hexadecimal.
fn packets_text(alloc: Global, hex: &str) -> Result<String, AllocError>
    ensures { IfOk result (λ text. ShowsPackets (scan (bytes_of hex.now)) (string_bytes text)) }
{
    let digits = hex_digits(alloc, hex)?;
    let Ok(bytes) = hex::decode(alloc, digits) else {
        return Err(AllocError);
    };
    let text = show_packets(alloc, &bytes)?;
    Ok(text)
}
