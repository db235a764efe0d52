// Dates as a handheld counts them, on the wire and as text.
ghost use Rattle.std.specs.Prelude.{◌≡◌, ◌<◌, IfOk, Some, length, take};
ghost use Rattle.std.specs.Result.{result_ok};
ghost use Rattle.pdb_values.specs.PalmDates.{wire_date, date_text, read_wire, wire_seconds, read_text as text_seconds, is_no_date as spec_no_date};

use crate::civil::{CivilTime, civil_at, count};
use crate::date_text::{civil_in, is_text_of};
use std::marker::Model;

/// Bytes or a text that are no date.
#[derive(Clone, Copy)]
pub struct BadDate;

/// A date and time, in seconds since 1904-01-01T00:00:00. 0 seconds stand for no date.
#[derive(Clone, Copy, PartialEq, Eq)]
pub struct PalmDate {
    seconds: u32,
}

impl Model for PalmDate {
    ghost use Rattle.std.specs.Prelude.{ℕ};

    ghost Value = { ℕ };

    ghost view = { λ date. date.seconds };

    ghost inverse = { λ seconds. record { seconds = seconds } };
}

impl PalmDate {
    /// The date of a number of seconds.
    pub fn of_seconds(seconds: u32) -> PalmDate
        ensures { result ≡ seconds }
    {
        PalmDate { seconds }
    }

    /// The number of seconds.
    pub fn seconds(self) -> u32
        ensures { result ≡ self }
    {
        self.seconds
    }

    /// The eight bytes of the date on the wire: the year with the high byte first, month, day, hour, minute, second, and
    /// a zero. 0 seconds are eight zeros.
    pub fn to_wire(self) -> [u8; 8]
        ensures wire { result ≡ wire_date self }
        ensures read_back { read_wire result ≡ Some self }
    {
        if self.seconds == 0 {
            return [0; 8];
        }
        let time = civil_at(self.seconds);
        [
            (time.year / 256) as u8,
            (time.year % 256) as u8,
            time.month,
            time.day,
            time.hour,
            time.minute,
            time.second,
            0,
        ]
    }

    /// The date of eight bytes on the wire, whose last byte is not looked at. Seven zeros are 0 seconds.
    pub fn from_wire(bytes: [u8; 8]) -> Result<PalmDate, BadDate>
        ensures value { result_ok result ≡ read_wire bytes }
        ensures form { IfOk result (λ date. 0 < date → take 7 bytes ≡ take 7 (wire_date date)) }
    {
        PalmDate::read_wire_bytes(&bytes)
    }

    // The same of eight bytes.
    fn read_wire_bytes(bytes: &[u8]) -> Result<PalmDate, BadDate>
        requires { length bytes.now ≡ 8 }
        ensures value { result_ok result ≡ read_wire bytes.now }
        ensures form { IfOk result (λ date. 0 < date → take 7 bytes.now ≡ take 7 (wire_date date)) }
    {
        PalmDate::of_wire(CivilTime {
            year: u16::from(bytes[0]) * 256 + u16::from(bytes[1]),
            month: bytes[2],
            day: bytes[3],
            hour: bytes[4],
            minute: bytes[5],
            second: bytes[6],
        })
    }

    // The date of what a wire date says.
    fn of_wire(time: CivilTime) -> Result<PalmDate, BadDate>
        ensures { result_ok result ≡ wire_seconds time }
    {
        if is_no_date(time) {
            return Ok(PalmDate { seconds: 0 });
        }
        match count(time) {
            Some(seconds) => Ok(PalmDate { seconds }),
            None => Err(BadDate),
        }
    }

    /// The date of a text of the form `YYYY-MM-DDTHH:MM:SS`, later than 0 seconds and up to 2040-02-06T06:28:15.
    pub fn read_text(text: &str) -> Result<PalmDate, BadDate>
        ensures value { result_ok result ≡ text_seconds text.now }
        ensures form { IfOk result (λ date. (text.now ≡ date_text date) × (0 < date)) }
    {
        PalmDate::read_bytes(text.as_bytes())
    }

    // The same of the bytes of a text.
    fn read_bytes(bytes: &[u8]) -> Result<PalmDate, BadDate>
        ensures { result_ok result ≡ text_seconds bytes.now }
    {
        let time = civil_in(bytes);
        if !is_text_of(bytes, time) {
            return Err(BadDate);
        }
        match count(time) {
            Some(seconds) if seconds > 0 => Ok(PalmDate { seconds }),
            _ => Err(BadDate),
        }
    }
}

// Each part is 0.
fn is_no_date(time: CivilTime) -> bool
    ensures { result ≡ spec_no_date time }
{
    time.year == 0
        && time.month == 0
        && time.day == 0
        && time.hour == 0
        && time.minute == 0
        && time.second == 0
}
