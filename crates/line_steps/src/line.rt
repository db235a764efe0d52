//! A line with its two ends.
ghost use Rattle.std.specs.Prelude.{◌≡◌, [], IfOk};
ghost use Rattle.trace_text.specs.declared.frame.End.TheVariants.{Handheld, Desktop};
ghost use Rattle.line_steps.specs.Resting.{IsNew};
ghost use Rattle.line_steps.specs.Counting.{CountsTaken};
ghost use Rattle.line_steps.specs.Telling.{Talks, no_talk};
ghost use Rattle.line_steps.specs.Turning.{Turn};

use crate::half::{Half, Wire};
use dlp_args::Message;
use padp_link::{Receiver, Sender};
use slp_frames::SlpReader;
use std::alloc::{AllocError, Global};
use trace_text::{End, FrameLog};

/// A line with its two ends.
#[derive(Drop)]
pub struct Line {
    pub wire: Wire,
    pub handheld: Half,
    pub desktop: Half,
}

impl Line {
    /// A line over which nothing was sent. It is the handheld's turn. The memory for the longest message that each end
    /// sends and takes is taken here; afterwards only the log of frames grows.
    pub fn new(alloc: Global) -> Result<Line, AllocError>
        ensures turn { IfOk result (λ line. Turn line.wire line.handheld line.desktop) }
        ensures handheld { IfOk result (λ line. IsNew line.handheld Handheld) }
        ensures desktop { IfOk result (λ line. IsNew line.desktop Desktop) }
        ensures talks { IfOk result (λ line.
            Talks no_talk line.wire line.handheld line.desktop) }
        ensures counted { IfOk result (λ line.
            CountsTaken line.wire line.handheld line.desktop) }
        ensures frames { IfOk result (λ line. line.wire.frames.items ≡ []) }
    {
        let handheld = new_half(alloc, End::Handheld)?;
        let desktop = new_half(alloc, End::Desktop)?;
        let wire = Wire {
            frames: FrameLog::new(alloc),
            released: 0,
        };
        Ok(Line {
            wire,
            handheld,
            desktop,
        })
    }
}

/// An end that sent and took nothing.
fn new_half(alloc: Global, end: End) -> Result<Half, AllocError>
    ensures { IfOk result (λ half. IsNew half end) }
{
    let message = Message::new(alloc)?;
    let receiver = Receiver::new(alloc)?;
    Ok(Half {
        end,
        sender: Sender::new(),
        message,
        receiver,
        reader: SlpReader::new(),
        taken: 0,
    })
}
