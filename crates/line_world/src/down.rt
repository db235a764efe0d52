//! Why a line went down.
use trace_text::End;

/// Why a line went down.
#[derive(Clone, Copy)]
pub enum Down {
    /// A piece of this end was sent ten times and never acknowledged. The frames are the last ten that the line did harm.
    LineDown { end: End, frames: [u64; 10] },
    /// The cable was pulled when this frame was to be sent.
    Unplugged(u64),
    /// An abort packet stands in this frame's place.
    Aborted(u64),
    /// What the line left of this frame, or the noise in front of it, held a packet.
    Undetected(u64),
    /// The folder of the handheld failed.
    Keeper,
}
