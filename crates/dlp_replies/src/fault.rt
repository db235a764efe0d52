// Why bytes are no reply.
ghost use Rattle.std.specs.Prelude.{◌≡◌};
ghost use Rattle.dlp_replies.specs.Faults.{of_arg_fault};

use dlp_args::ArgFault;
use thiserror::Error;

/// The first rule that the bytes of a reply break. A place is an offset from the first byte.
#[derive(Clone, Copy, Debug, Error)]
pub enum ReplyFault {
    /// The message is shorter than four bytes (place 0), or the argument that begins here passes the end, or these bytes
    /// stand after the last argument.
    #[error("the message ends badly at place {0}")]
    Wrapper(usize),
    /// The first byte, which is not the function of the request with 0x80 set.
    #[error("the reply is one to the function {0}")]
    Function(u8),
    /// The first byte of an argument, which bears no id.
    #[error("no argument has the id at place {0}")]
    BadId(usize),
    /// The second byte of a long argument whose size is above 65,535.
    #[error("the size at place {0} is too large")]
    BadSize(usize),
    /// There is an argument beside an error, or the ids of the arguments are not those of the function.
    #[error("the arguments are not those of the function")]
    Argument,
    /// The argument, a list or a part of it has a length that the layout does not allow, a text does not end with its one
    /// zero, or the name or the password of a user has more than 40 bytes.
    #[error("an argument has another length")]
    Size,
    /// The first byte of the first value that is none: an id above 16,777,215, a category above 15, no date, no name of a
    /// database, or record data of more than 65,500 bytes.
    #[error("the value at place {0} is none")]
    Value(usize),
}

impl From<ArgFault> for ReplyFault {
    ghost from_gives = { λ fault e. e ≡ of_arg_fault fault };

    fn from(fault: ArgFault) -> ReplyFault {
        match fault {
            ArgFault::Wrapper(place) => ReplyFault::Wrapper(place),
            ArgFault::BadId(place) => ReplyFault::BadId(place),
            ArgFault::BadSize(place) => ReplyFault::BadSize(place),
        }
    }
}
