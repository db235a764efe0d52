//! The handheld's end of a HotSync as a machine that is handed packets, and a loop that runs it over a
//! stream of bytes.
//!
//! A `Talk` stands over a `Server`, the handheld's folder. It knows no line, no port and no clock: it
//! says its wake when it is made, `take` hands it a packet and puts what goes back into the caller's
//! room, and `over` says whether the talk has ended. `wait` is for a caller with a clock: it says the
//! piece that waits once more. What it says to a packet is `taken_by` of `specs/Hands.antt`.
//!
//! An emulator feeds it by hand, with the bytes that come, so; `out` is what goes back each time, the
//! wake first:
//!
//! ```text
//! let mut out = ArrayVec::new();
//! let mut talk = Talk::new(alloc, server, &mut out)?;
//! let mut reader = SlpReader::new();
//! for bytes in [acknowledgement, init, request] {
//!     reader.feed(bytes);
//!     let Some(packet) = reader.next() else { continue; };
//!     talk.take(packet, &mut out)?;
//!     if talk.over().is_some() { break; }
//! }
//! let (report, folder) = talk.into_parts();
//! ```
//!
//! Between two packets a talk can be taken apart and kept elsewhere: `into_hand` gives its folder and
//! plain parts, and `of_parts` makes a talk of these again, over the store that the folder stands for.
//! It has no text of what was performed before; what it says is the same (`specs/Alikeness.antt`).
//!
//! `run_device` reads a source to its end, finds the packets in it, hands them to a talk, and writes
//! what is said to a sink.
#![tactic(auto)]

mod device_end;
mod greeting;
mod hearing;
mod laws;
mod parts;
mod performing;
mod report;
mod stream;
mod talk;
mod talk_end;

pub use device_end::DeviceEnd;
pub use laws::{
    a_repeat_does_nothing, a_step_performs_once, a_talk_is_a_run, a_talk_made_again_goes_on,
    alike_hands_talk_alike, alikeness_is_an_equivalence, parts_of_a_talk_are_one,
};
pub use padp_end::{EndParts, MAX_SAID, PartsFault, ReceiverParts, SenderParts};
pub use parts::TalkParts;
pub use report::DeviceReport;
pub use stream::run_device;
pub use talk::Talk;
pub use talk_end::TalkEnd;
