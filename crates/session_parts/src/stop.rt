// Why a session stops.
ghost use Rattle.std.specs.Prelude.{◌≡◌};
ghost use Rattle.desktop_session.specs.declared.fault.SessionFault.TheVariants as session;
ghost use Rattle.session_parts.specs.declared.stop.Stop.TheVariants as stops;
ghost use Rattle.session_parts.specs.Stopping.{stop_of};

use desk_store::CommitFault;
use desktop_session::SessionFault;
use pdb_values::DbName;
use std::alloc::AllocError;

/// Why a session stopped before both sides had ended it.
#[derive(Drop)]
pub enum Stop {
    /// A call of the session was not done, and why: the link, a reply, the handheld's user, or want of memory.
    Session(SessionFault),
    /// The database of this name would pass a limit of a side. Nothing was written.
    Limit(DbName),
    /// By a handheld that is a stranger to the desktop's slot, or lost this database, the session would cost the desktop live rows of it.
    /// Nothing was written.
    NewHandheld(DbName),
    /// The desktop's folder failed.
    DeskFault,
}

impl From<SessionFault> for Stop {
    ghost from_gives = { λ fault made. made ≡ stops.Session fault };

    fn from(fault: SessionFault) -> Stop {
        Stop::Session(fault)
    }
}

impl From<AllocError> for Stop {
    ghost from_gives = { λ refused made. made ≡ stops.Session session.NoMemory };

    fn from(_: AllocError) -> Stop {
        Stop::Session(SessionFault::NoMemory)
    }
}

impl From<CommitFault> for Stop {
    ghost from_gives = { λ fault made. made ≡ stop_of fault };

    fn from(fault: CommitFault) -> Stop {
        match fault {
            CommitFault::DeskFault => Stop::DeskFault,
            CommitFault::NoMemory => Stop::Session(SessionFault::NoMemory),
        }
    }
}
