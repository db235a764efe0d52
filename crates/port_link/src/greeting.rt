//! The greetings, and the transactions.
ghost use Rattle.std.specs.Prelude.{◌≡◌};
ghost use Rattle.port_link.specs.Greetings.{IsWakeAnswer, id_behind, init_text};

use crate::port_cause::PortCause;
use cmp_hello::{HELLO_LEN, Hello, HelloKind, read_hello, write_hello};

/// The transaction of the greetings.
pub(crate) const GREETING_ID: u8 = 255;

/// The last transaction of requests before they come round.
const LAST_ID: u8 = 253;

/// The rate that a line begins with, in bits per second. Naming it asks for no change.
const RATE: u32 = 9_600;

/// The bytes of the desktop's greeting, of version 1.1.
pub(crate) fn init() -> [u8; HELLO_LEN]
    ensures { result ≡ init_text }
{
    write_hello(&Hello {
        kind: HelloKind::Init,
        flags: 0,
        minor: 1,
        rate: RATE,
    })
}

/// The rate of a wake. Another first message is no handheld's, or ends the connection.
pub(crate) fn read_wake(message: &[u8]) -> Result<u32, PortCause>
    ensures { IsWakeAnswer message.now result }
{
    match read_hello(message) {
        Ok(hello) => match hello.kind {
            HelloKind::Wake => Ok(hello.rate),
            HelloKind::Abort => Err(PortCause::Aborted),
            HelloKind::Init => Err(PortCause::NoHandheld),
        },
        Err(_) => Err(PortCause::NoHandheld),
    }
}

/// The transaction behind this one.
pub(crate) fn id_of_next(id: u8) -> u8
    ensures { result ≡ id_behind id }
{
    if id < LAST_ID { id + 1 } else { 1 }
}
