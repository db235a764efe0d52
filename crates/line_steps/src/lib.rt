//! Steps over the parts of a line: the frames so far, and the two ends with what each sends and takes.
//!
//! A frame is a packet with a fragment. It goes to the other end by its fate: it arrives, is lost, comes late, comes
//! damaged, or comes behind noise; or it ends the run. `hear` is what an end makes of the bytes that arrive.
//!
//! Over these steps the messages of a session go: the two ends greet each other, and then requests and replies go over in
//! turn. The wake and the init have transaction 255. Request number k and its reply have the one after (k - 1) modulo 253,
//! so that neighbouring messages of an end have different ones.
#![tactic(auto)]

mod asking;
mod carrying;
mod greeting;
mod half;
mod harm;
mod hearing;
mod laws;
mod line;
mod over;
mod pieces;
mod sending;
mod skipping;
mod starting;
mod taking;
mod ticking;

pub use asking::{answer, ask};
pub use carrying::{carry, settle};
pub use greeting::greet;
pub use half::{Half, Wire};
pub use harm::Stop;
pub use hearing::{Heard, hear};
pub use laws::{
    a_fair_line_is_never_down, a_halted_trace_is_proper, a_halted_trace_tells_its_messages,
    a_running_trace_is_proper, a_turn_tells_all_messages,
};
pub use line::Line;
pub use sending::Halt;
pub use skipping::skip_to_head;
pub use starting::{expect, start};
pub use taking::take_next;
pub use ticking::{delivers, tick};
