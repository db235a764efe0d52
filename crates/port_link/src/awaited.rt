//! What a desktop's end listens for.
ghost use Rattle.std.specs.Prelude.{◌≡◌};
ghost use Rattle.port_link.specs.Listening.{is_over};

use crate::turn::Turn;

/// What a desktop's end listens for.
#[derive(Clone, Copy)]
pub enum Awaited {
    /// The first message of the other end, which is to be its wake.
    Wake,
    /// A message of the other end. Behind its greeting it greets nobody but where it begins anew.
    Message,
    /// The acknowledgement of its own message.
    Delivery,
    /// A tick of silence while nothing of its own waits.
    Tick,
}

/// Whether the listening is over.
pub(crate) fn ends(awaited: Awaited, turn: Turn) -> bool
    ensures { result ≡ is_over awaited turn }
{
    match turn {
        Turn::GoesOn => false,
        Turn::Delivered => matches!(awaited, Awaited::Delivery),
        Turn::Whole => matches!(awaited, Awaited::Wake | Awaited::Message),
        Turn::Quiet => matches!(awaited, Awaited::Tick),
        Turn::Greeted => matches!(awaited, Awaited::Message),
        Turn::Spent | Turn::Silent | Turn::Aborted => true,
    }
}
