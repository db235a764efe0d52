//! The packets in the bytes of a serial line.

ghost use Rattle.hotsync_c.specs.Texts.{RefusesForMemory, ShowsPacketsIn};
ghost use Rattle.hotsync_c.specs.Answers.{Answers};

use crate::refusal::Refusal;
use crate::room::put;
use std::alloc::{AllocError, Global};
use trace_text::show_packets;

/// Puts a line for each packet in the bytes into the room, and then the line of their number.
///
/// The answer is how long that is, or -1 where memory was refused.
#[unsafe(no_mangle)]
pub extern "C" fn hs_packets(alloc: Global, bytes: &[u8], room: &mut [u8]) -> i64
    ensures { Answers (ShowsPacketsIn bytes.now) RefusesForMemory room.old room.new result }
{
    match show_packets(alloc, bytes) {
        Ok(text) => put(text.as_bytes(), room),
        Err(AllocError) => Refusal::Memory.answer(),
    }
}
