// Why a session stops.
ghost use Rattle.std.specs.Prelude.{◌≡◌};
ghost use Rattle.desktop_session.specs.Faults.{fault_of};

use dlp_commands::{ErrorCode, LinkFault, ReplyFault};
use std::alloc::AllocError;

/// Why a call of a session was not done.
#[derive(Clone, Copy)]
pub enum SessionFault {
    /// The link went down.
    Down,
    /// The handheld refused a request of this function with this error, and the call has no answer of its own for it.
    Refused { function: u8, code: ErrorCode },
    /// Both sides have a user, and the desktop knows none of the handheld's; its first one is told.
    OtherUser { handheld: u32, desktop: u32 },
    /// The bytes of the reply to a request of this function are none, and which rule they break.
    BadReply { function: u8, fault: ReplyFault },
    /// The handheld's user would be the desktop's seventeenth.
    TooManyUsers,
    /// Memory ran out.
    NoMemory,
}

// The fault of a link.
pub(crate) fn of_link(fault: LinkFault) -> SessionFault
    ensures { result ≡ fault_of fault }
{
    match fault {
        LinkFault::Down => SessionFault::Down,
        LinkFault::NoMemory => SessionFault::NoMemory,
    }
}

impl From<AllocError> for SessionFault {
    ghost use Rattle.std.specs.Prelude.{◌≡◌};
    ghost use Rattle.desktop_session.specs.declared.fault.SessionFault.TheVariants as session;

    ghost from_gives = { λ refused made. made ≡ session.NoMemory };

    fn from(_: AllocError) -> SessionFault {
        SessionFault::NoMemory
    }
}
