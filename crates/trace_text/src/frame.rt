//! A frame of the line.
ghost use Rattle.std.specs.Prelude.{◌≤◌, length};

use crate::fate::{Fate, FateLent};
use arrayvec::ArrayVec;

/// An end of the line.
#[derive(Clone, Copy, PartialEq, Eq)]
pub enum End {
    Handheld,
    Desktop,
}

/// What was sent over the line at one time: a packet with a fragment, by one of the two ends.
#[derive(Drop)]
pub struct Frame {
    /// Its number among the frames of both ends in the order of sending, from 1 on.
    pub number: u64,
    /// Who sent it.
    pub from: End,
    /// What the line did with it.
    pub fate: Fate,
    /// Whether the other end took its bytes, undamaged, before the run ended.
    pub came: bool,
    /// The packet as it was sent.
    pub bytes: ArrayVec<u8, 1040>,
}

/// A frame whose bytes lie elsewhere.
#[derive(Clone, Copy)]
pub struct FrameLent<'a> {
    pub number: u64,
    pub from: End,
    pub fate: FateLent<'a>,
    pub came: bool,
    pub bytes: &'a [u8],
    ghost short: { length bytes.now ≤ 1040 },
}

impl Frame {
    ghost use Rattle.std.specs.Prelude.{◌≡◌};
    ghost use Rattle.trace_text.specs.Lent.{lent_frame};
    ghost use Rattle.trace_text.specs.TraceLines.{frame_value};

    /// The frame, with its bytes where they lie.
    pub fn lent(&self) -> FrameLent<'_>
        ensures { lent_frame result ≡ frame_value self.now }
    {
        FrameLent {
            number: self.number,
            from: self.from,
            fate: self.fate.lent(),
            came: self.came,
            bytes: self.bytes.as_slice(),
        }
    }
}
