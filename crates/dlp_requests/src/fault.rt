// Why bytes are no request.
ghost use Rattle.std.specs.Prelude.{◌≡◌};
ghost use Rattle.dlp_requests.specs.Faults.{of_arg_fault};

use dlp_args::ArgFault;
use thiserror::Error;

/// The first rule that the bytes of a request break. A place is an offset from the first byte.
#[derive(Clone, Copy, Debug, Error)]
pub enum RequestFault {
    /// No function has this byte.
    #[error("no function has the byte {0}")]
    Illegal(u8),
    /// The message is shorter than two bytes (place 0), or the argument that begins here passes the end, or these bytes
    /// stand after the last argument.
    #[error("the message ends badly at place {0}")]
    Wrapper(usize),
    /// The first byte of an argument, which bears no id.
    #[error("no argument has the id at place {0}")]
    BadId(usize),
    /// The second byte of a long argument whose size is above 65,535.
    #[error("the size at place {0} is too large")]
    BadSize(usize),
    /// The ids of the arguments are not those of the function.
    #[error("the arguments are not those of the function")]
    Argument,
    /// The argument has a length that its layout does not allow, or a text has no zero, or one before its end.
    #[error("an argument has another length")]
    Size,
}

impl From<ArgFault> for RequestFault {
    ghost from_gives = { λ fault e. e ≡ of_arg_fault fault };

    fn from(fault: ArgFault) -> RequestFault {
        match fault {
            ArgFault::Wrapper(place) => RequestFault::Wrapper(place),
            ArgFault::BadId(place) => RequestFault::BadId(place),
            ArgFault::BadSize(place) => RequestFault::BadSize(place),
        }
    }
}
