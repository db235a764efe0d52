//! Two ends over a cable, and a handheld behind a port, as definitions and laws.
//!
//! A cable loses packets and keeps the order of the others (`specs/Cables.antt`): what holds of both ends and of what is
//! under way, whenever either of them takes a packet or says a piece once more, and what follows for what they hear
//! (`specs/Moments.antt` is what may happen). Nothing is said of time: an end may say its piece again at any moment, as often
//! as it likes.
//!
//! A handheld stands behind a cable that keeps four rules: what stands behind a port (`specs/Palms.antt`), and what holds of
//! a desktop's end over it from the first packet on (`specs/Talking.antt`).
#![tactic(auto)]

mod cable_laws;
mod laws;

pub use cable_laws::{
    a_message_may_be_awaited, a_message_may_begin, a_packet_is_taken_rightly, a_packet_may_be_lost,
    a_piece_may_go_again, a_repeat_is_known, an_acknowledgement_is_for_its_piece, ends_are_alike,
};
pub use laws::{
    a_first_message_is_the_wake, a_palm_stands, a_reply_is_to_its_request, a_reply_may_be_awaited,
    a_request_may_begin, a_session_opens, an_abort_may_be_said, an_init_is_no_request,
    an_init_may_begin, bytes_may_come, packets_may_come, silence_may_come,
};
