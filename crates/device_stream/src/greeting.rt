//! The greetings, the transactions, and the last reply.
ghost use Rattle.std.specs.Prelude.{◌≡◌, ◌<◌, ◌^◌};
ghost use Rattle.padp_link.specs.Neighbours.{session_id as id_by_number};
ghost use Rattle.line_steps.specs.TalkTelling.{bytes_of, wake as the_wake};
ghost use Rattle.device_stream.specs.Hands.{is_farewell as ends_sync, is_init as begins_talk};

use cmp_hello::{HELLO_LEN, Hello, HelloKind, read_hello, write_hello};

/// The rate that the handheld asks for, in bits per second.
const RATE: u32 = 9_600;

/// The reply to EndOfSync.
const FAREWELL: [u8; 4] = [0xAF, 0, 0, 0];

/// The bytes of the handheld's greeting, of version 1.1.
pub(crate) fn wake() -> [u8; HELLO_LEN]
    ensures { result ≡ bytes_of the_wake }
{
    write_hello(&Hello {
        kind: HelloKind::Wake,
        flags: 0,
        minor: 1,
        rate: RATE,
    })
}

/// Whether a message begins the talk.
pub(crate) fn is_init(message: &[u8]) -> bool
    ensures { result ≡ begins_talk message.now }
{
    match read_hello(message) {
        Ok(hello) => matches!(hello.kind, HelloKind::Init),
        Err(_) => false,
    }
}

/// Whether a reply ends the talk.
pub(crate) fn is_farewell(reply: &[u8]) -> bool
    ensures { result ≡ ends_sync reply.now }
{
    reply == FAREWELL.as_slice()
}

/// The transaction of the request of this number, and of its reply. The greetings are number 0.
pub(crate) fn session_id(number: usize) -> u8
    ensures { result ≡ id_by_number number }
{
    if number == 0 {
        255
    } else {
        ((number - 1) % 253) as u8 + 1
    }
}
