// Times of day.
ghost use Rattle.std.specs.Prelude.{◌≡◌, ◌≤◌, IfOk, IfSome, IsTrue, length};
ghost use Rattle.palm_events.specs.Forms.{are_times};
ghost use Rattle.palm_events.specs.Steps.{Reads};
ghost use Rattle.palm_events.specs.Times as times;
ghost use Rattle.palm_events.specs.Times.{times_in};

use palm_records::BadRecord;

/// A time of day.
#[derive(Clone, Copy, Debug, PartialEq, Eq)]
pub struct Time {
    /// 0 to 23.
    pub hour: u8,
    /// 0 to 59.
    pub minute: u8,
}

/// When a date begins and ends. The end may be before the start: it is on the next day then.
#[derive(Clone, Copy, Debug, PartialEq, Eq)]
pub struct Times {
    pub start: Time,
    pub end: Time,
}

// A clock has this time.
fn is_time(time: Time) -> bool
    ensures { result ≡ times.is_time time }
{
    time.hour <= 23 && time.minute <= 59
}

// The times of a record, if it has any.
pub fn read_times(bytes: &[u8]) -> Result<Option<Times>, BadRecord>
    requires { 4 ≤ length bytes.now }
    ensures times { Reads (λ times. times) result (times_in bytes.now) }
    ensures form { IfOk result (λ times. IfSome times (λ times. IsTrue (are_times times))) }
{
    if bytes[0] == 0xFF && bytes[1] == 0xFF && bytes[2] == 0xFF && bytes[3] == 0xFF {
        return Ok(None);
    }
    let start = Time {
        hour: bytes[0],
        minute: bytes[1],
    };
    let end = Time {
        hour: bytes[2],
        minute: bytes[3],
    };
    if !is_time(start) || !is_time(end) {
        return Err(BadRecord { place: 0 });
    }
    Ok(Some(Times { start, end }))
}
