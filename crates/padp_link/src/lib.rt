//! Fragments of messages: the packet assembly and disassembly protocol (PADP) of Palm handhelds, as
//! pilot-link has it in `pi-padp.h` and `padp.c`.
//!
//! A message of at most 65,535 bytes goes in pieces of at most 1,024. `write_fragment` gives the bytes
//! of a fragment, and `read_fragment` takes exactly these. A `Sender` says which piece of a message
//! waits for its acknowledgement, sends it again up to ten times, and goes on with the next one once it
//! is acknowledged. A `Receiver` takes the pieces of the message that it waits for, in their order and
//! each once, and lends the whole message. `arrived` judges each packet that comes, for both ends. What pieces a
//! message has is in `specs/Pieces.antt`.
//!
//! An end that says a message asks for the piece that waits, and tells of each acknowledgement; one that
//! hears a message tells of each fragment, and asks for the whole (`part_cases` has these lines):
//!
//! ```text
//! sender.start(id, short_in(word(words, 2)));
//! match sender.current() {
//! sender.on_ack(key)
//!
//! receiver.expect(id);
//! receiver.on_data(id, &fragment)
//! match receiver.whole() {
//! ```
//!
//! What a receiver and a sender hold can be kept elsewhere, as plain parts: `parts` tells them, and `of_parts` makes the same
//! receiver or sender of them (`specs/Parts.antt`).
//!
//! Only a `Receiver` takes memory, where it is made or told in parts.
#![tactic(auto)]

mod arrival;
mod fragment;
mod judge;
mod laws;
mod parts;
mod piece;
mod receiver;
mod sender;

pub use arrival::{Arrived, PACKET_TYPE, SOCKET};
pub use fragment::{
    FIRST, Fragment, FragmentFault, HEADER_LEN, LAST, LONG_HEADER, MAX_DATA, MAX_FRAGMENT,
    MEMORY_ERROR, PadpKind, read_fragment, write_fragment,
};
pub use judge::arrived;
pub use laws::{
    acknowledgement_is_a_fragment, keys_differ_in_a_session, neighbours_have_different_keys,
    pieces_are_fragments, pieces_by_number_have_different_keys, pieces_give_the_message,
    text_determines_fragment, waiting_piece_is_a_fragment,
};
pub use parts::{PartsFault, ReceiverParts, SenderParts};
pub use piece::{Key, Piece};
pub use receiver::{Receiver, Taken};
pub use sender::{MAX_TRIES, Sender, TriesSpent};
