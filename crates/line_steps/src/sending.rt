//! A frame more on the line.
ghost use Rattle.std.specs.Prelude.{◌≡◌, OnOk, IfErr, None};
ghost use Rattle.padp_link.specs.FragmentText.{IsFragment, FragmentText, fragment_text};
ghost use Rattle.padp_link.specs.FragmentValues.{fragment_value};
ghost use Rattle.trace_text.specs.Fates.{fate_value};
ghost use Rattle.trace_text.specs.Frames.{padp_packet};
ghost use Rattle.line_steps.specs.Rooms.{WantsRoom};
ghost use Rattle.line_steps.specs.Sending.{Sends, Halts};
ghost use Rattle.line_steps.specs.declared.sending.Halt.TheVariants.{NoMemory};

use crate::harm::{Stop, stop_of};
use arrayvec::ArrayVec;
use padp_link::{FIRST, Fragment, LAST, PACKET_TYPE, PadpKind, SOCKET, write_fragment};
use slp_frames::{MAX_PACKET, Packet, write_packet};
use std::alloc::{AllocError, AllocFailed};
use trace_text::{End, Fate, FrameLog};

/// Why a run halts.
#[derive(Clone, Copy)]
pub enum Halt {
    /// Memory ran out, before the frame was sent.
    NoMemory,
    /// The run ends with the frame that was sent.
    Stopped(Stop),
    /// A piece of this end was sent as often as a piece is.
    Down(End),
}

impl<T: Drop> From<AllocFailed<T>> for Halt {
    ghost from_gives = { λ _ halt. halt ≡ NoMemory };

    fn from(_: AllocFailed<T>) -> Self {
        Halt::NoMemory
    }
}

impl From<AllocError> for Halt {
    ghost from_gives = { λ _ halt. halt ≡ NoMemory };

    fn from(_: AllocError) -> Self {
        Halt::NoMemory
    }
}

/// Sends a fragment in a packet of this transaction, with this fate.
pub(crate) fn send(
    frames: &mut FrameLog,
    from: End,
    id: u8,
    fragment: &Fragment<'_>,
    fate: &Fate,
) -> Result<(), Halt>
    requires { IsFragment (fragment_value fragment.now) }
    ensures ok { OnOk result
        (Sends frames.old.items from id (fragment_value fragment.now)
        (fate_value fate.now) None frames.new.items) }
    ensures halt { IfErr result (λ halt. Halts frames.old.items from id
        (fragment_value fragment.now) (fate_value fate.now) halt frames.new.items) }
    ensures room { WantsRoom result frames.old frames.new }
{
    let mut packet = ArrayVec::new();
    write_with(id, fragment, &mut packet);
    let stop = stop_of(fate.lent(), packet.as_slice());
    if let Some(Stop::Aborted) = stop {
        write_with(id, &ABORT, &mut packet);
    }
    frames.push(from, fate.lent(), packet.as_slice())?;
    match stop {
        Some(stop) => Err(Halt::Stopped(stop)),
        None => Ok(()),
    }
}

/// What an abort packet bears.
const ABORT: Fragment<'static> = Fragment {
    kind: PadpKind::Abort,
    flags: FIRST | LAST,
    size: 0,
    bytes: &[],
};

/// Replaces `out` by the packet of this transaction with this fragment.
fn write_with(id: u8, fragment: &Fragment<'_>, out: &mut ArrayVec<u8, MAX_PACKET>)
    requires { IsFragment (fragment_value fragment.now) }
    ensures bytes { out.new.items ≡ padp_packet id (fragment_value fragment.now) }
    ensures text { FragmentText (fragment_value fragment.now) (fragment_text
        (fragment_value fragment.now)) }
{
    let mut body = ArrayVec::new();
    write_fragment(fragment, &mut body);
    let packet = Packet {
        dest: SOCKET,
        source: SOCKET,
        kind: PACKET_TYPE,
        id,
        body,
    };
    write_packet(&packet, out);
}
