//! An end of a link that is handed packets: it sends its messages and takes those of the other end, by
//! the packet assembly and disassembly protocol (PADP) of Palm handhelds, as pilot-link has it in
//! `padp.c`.
//!
//! An `End` knows nothing of what it serves, of a line or of a clock. It is handed each packet that
//! came, by `take`, and says what goes back into the caller's room; `Heard` tells what there is to do
//! about it. `begin` begins a message, `expect` awaits the next one, and a caller with a clock asks by
//! `wait` for the piece that has to go once more. What an end says to a packet is `end_takes` of
//! `specs/Ends.antt`. `abort_packet` ends the connection, of which no end keeps anything.
//!
//! What an end holds can be kept elsewhere, as plain parts: `parts` tells them, and `of_parts` makes the same end of them
//! (`specs/Parts.antt`).
//!
//! Only `End::new` and these two take memory.
#![tactic(auto)]

mod end;
mod heard;
mod laws;
mod parts;
mod saying;
mod waiting;

pub use end::End;
pub use heard::Heard;
pub use laws::{
    a_message_is_whole, a_packet_is_answered_by_one_at_most, a_repeat_is_acknowledged_and_no_more,
    parts_of_an_end_are_one,
};
pub use padp_link::{PartsFault, ReceiverParts, SenderParts};
pub use parts::EndParts;
pub use saying::{MAX_SAID, abort_packet};
