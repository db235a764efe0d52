//! Why a run ends.
ghost use Rattle.std.specs.Prelude.{◌≡◌, length, map};
ghost use Rattle.trace_text.specs.Fates as fates;
ghost use Rattle.trace_text.specs.Lent.{lent_fate};
ghost use Rattle.trace_text.specs.TraceLines.{frame_value};
ghost use Rattle.line_world.specs.Causes.{AreLastTen, IsCauseOf, KeeperOnly, NamesLast, link_fault};

use crate::down::Down;
use dlp_commands::LinkFault;
use handheld_server::ServeFault;
use line_steps::{Halt, Stop};
use std::alloc::AllocError;
use trace_text::{FateKind, FateLent, FrameLog};

/// Why a request gets no reply.
#[derive(Clone, Copy)]
pub(crate) enum Break {
    /// Memory ran out.
    NoMemory,
    /// The line halted.
    Line(Halt),
    /// The folder of the handheld failed.
    Keeper,
}

impl From<Halt> for Break {
    ghost use Rattle.line_world.specs.declared.stop.Break.TheVariants.{Line};

    ghost from_gives = { λ halt ended. ended ≡ Line halt };

    fn from(halt: Halt) -> Break {
        Break::Line(halt)
    }
}

impl From<AllocError> for Break {
    ghost use Rattle.line_world.specs.declared.stop.Break.TheVariants.{NoMemory};

    ghost from_gives = { λ _ ended. ended ≡ NoMemory };

    fn from(_: AllocError) -> Break {
        Break::NoMemory
    }
}

impl From<ServeFault> for Break {
    ghost use Rattle.line_world.specs.Serving.{break_of};

    ghost from_gives = { λ fault ended. ended ≡ break_of fault };

    fn from(fault: ServeFault) -> Break {
        match fault {
            ServeFault::Keeper => Break::Keeper,
            ServeFault::NoMemory => Break::NoMemory,
        }
    }
}

/// Why the line is down, unless memory ran out.
pub(crate) fn cause_of(ended: Break, frames: &FrameLog) -> Option<Down>
    ensures is { IsCauseOf ended (length frames.now.items) result }
    ensures keeper { KeeperOnly ended result }
    ensures names { NamesLast result (map frame_value frames.now.items) }
{
    let last = frames.len() as u64;
    match ended {
        Break::NoMemory | Break::Line(Halt::NoMemory) => None,
        Break::Line(Halt::Stopped(Stop::Unplugged)) => Some(Down::Unplugged(last)),
        Break::Line(Halt::Stopped(Stop::Aborted)) => Some(Down::Aborted(last)),
        Break::Line(Halt::Stopped(Stop::Undetected)) => Some(Down::Undetected(last)),
        Break::Line(Halt::Down(end)) => Some(Down::LineDown {
            end,
            frames: last_faults(frames),
        }),
        Break::Keeper => Some(Down::Keeper),
    }
}

/// What the link answers.
pub(crate) fn fault_of(cause: &Option<Down>) -> LinkFault
    ensures { result ≡ link_fault cause.now }
{
    match cause {
        Some(_) => LinkFault::Down,
        None => LinkFault::NoMemory,
    }
}

/// The numbers of the last ten frames that the line did harm, in order.
fn last_faults(frames: &FrameLog) -> [u64; 10]
    ensures ten { length result ≡ 10 }
    ensures last { AreLastTen result (map frame_value frames.now.items) }
{
    let mut numbers = [0; 10];
    let mut place = 10;
    let mut left = frames.len();
    while left > 0 && place > 0 {
        left -= 1;
        let frame = frames.get(left);
        if is_fault(frame.fate) {
            place -= 1;
            numbers[place] = frame.number;
        }
    }
    numbers
}

/// Whether the line does harm to a frame of this fate.
fn is_fault(fate: FateLent<'_>) -> bool
    ensures { result ≡ fates.is_fault (lent_fate fate.entry) }
{
    match fate.kind {
        FateKind::Lost | FateKind::Late | FateKind::Cut(_) | FateKind::Hit(_) => true,
        FateKind::Ok | FateKind::Noise | FateKind::Unplug | FateKind::Abort => false,
    }
}
