// The date now.
ghost use Rattle.std.specs.Prelude.{◌≡◌};
ghost use Rattle.call_parts.specs.Clocks.{seconds_at as seconds_of_clock};

use std::time::{Clock, SystemTime, UNIX_EPOCH};

// The seconds from 1904-01-01T00:00:00 to 1970-01-01T00:00:00.
const BEFORE_1970: u64 = 2_082_844_800;

/// The seconds of the date now, as a handheld counts them, by the system's clock in UTC. None, where the system doesn't tell it, and
/// behind 2040-02-06T06:28:15.
pub fn seconds_now<R: Clock>(rt: &R) -> Option<u32> {
    let Ok(now) = SystemTime::now(rt) else {
        return None;
    };
    match now.duration_since(UNIX_EPOCH) {
        Ok(since) => seconds_at(since.as_secs()),
        Err(_) => None,
    }
}

// The seconds since 1904 of those since 1970.
fn seconds_at(clock: u64) -> Option<u32>
    ensures { result ≡ seconds_of_clock clock }
{
    let seconds = clock.checked_add(BEFORE_1970)?;
    match u32::try_from(seconds) {
        Ok(seconds) => Some(seconds),
        Err(_) => None,
    }
}
