//! What goes over the serial link, as text: the packets that stand in captured bytes, and the frames of a trace, each with
//! its fate. `specs/Fates` says what becomes of a frame by its fate, `specs/Proper` what makes a trace proper.
//!
//! `show_packet` gives one line, without its end, of a packet that `slp_frames` found. A body that is a
//! fragment of `padp_link` is shown by its fields, another one by its length. `show_packets` gives the lines
//! of all packets that stand in some bytes, and then their number.
#![tactic(auto)]

mod fate;
mod frame;
mod frame_log;
mod packet;
mod packets;
mod trace;

pub use fate::{Fate, FateKind, FateLent};
pub use frame::{End, Frame, FrameLent};
pub use frame_log::FrameLog;
pub use packet::show_packet;
pub use packets::show_packets;
pub use trace::{write_frame, write_trace};
