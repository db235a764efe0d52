//! The line between the two ends of a HotSync, as definitions and laws: what holds of both ends and of the frames
//! between them after every step, whatever becomes of a frame, and what follows for the trace.
//!
//! Each end sends one message after the other in pieces, and each piece up to ten times until it is acknowledged
//! (pilot-link's `padp.c`); a frame comes, is lost or comes late. `specs/Line.antt` is what holds after every step, and
//! `proofs/RunningLaws.antt` has a law for each step.
//!
//! Beside them stand two proper traces and one that isn't, as examples of the definition (`specs/Examples.antt`): a session
//! between two empty folders over a line that loses nothing, the same over a line that loses two frames, and the first of
//! these with one digit changed.
#![tactic(auto)]

mod example_laws;
mod laws;

pub use example_laws::{
    a_changed_digit_is_noticed, a_losing_line_has_a_proper_trace, a_quiet_line_has_a_proper_trace,
};
pub use laws::{a_dead_line_has_ten_faults, a_running_line_has_a_proper_trace, past_grows};
