// Civil dates and times, and the seconds to them.
ghost use Rattle.std.specs.Prelude.{◌≡◌, ◌+◌, ◌<◌, ◌≤◌, ◌^◌, ◌+ℤ◌, pos};
ghost use Rattle.jiff.specs.Words.{epoch_day};
ghost use Rattle.pdb_values.specs.CivilTimes.{civil_of};
ghost use Rattle.pdb_values.specs.PalmDates.{counted};

use jiff::ToSpan;
use jiff::civil::{Date, date};

// The days from -9999-01-01, the calendar's first, to 1904-01-01.
const FIRST_DAY: u32 = 4_347_480;

/// A date and a time of day, as written.
#[derive(Clone, Copy)]
pub struct CivilTime {
    pub year: u16,
    pub month: u8,
    pub day: u8,
    pub hour: u8,
    pub minute: u8,
    pub second: u8,
}

// The day that many days after 1904-01-01.
fn day_at(days: u32) -> Date
    requires { days ≤ 49_710 }
    ensures { epoch_day result +ℤ pos 4_371_587 ≡ pos (days + 4_347_480) }
{
    date(1904, 1, 1).saturating_add(i64::from(days).days())
}

// The date and time that many seconds after the start of 1904.
pub fn civil_at(seconds: u32) -> CivilTime
    ensures { result ≡ civil_of seconds }
{
    let date = day_at(seconds / 86_400);
    CivilTime {
        year: date.year() as u16,
        month: date.month() as u8,
        day: date.day() as u8,
        hour: (seconds / 3600 % 24) as u8,
        minute: (seconds / 60 % 60) as u8,
        second: (seconds % 60) as u8,
    }
}

// The seconds to a date and time, if there is such a one in range.
#[tactic(auto, unfolding(crate::specs::PalmDates::counted))]
pub fn count(time: CivilTime) -> Option<u32>
    ensures { result ≡ counted time }
{
    if time.year < 1904 || time.year > 2040 {
        return None;
    }
    if time.month > 12 || time.day > 31 {
        return None;
    }
    if time.hour > 23 || time.minute > 59 || time.second > 59 {
        return None;
    }
    let Ok(date) = Date::new(time.year as i16, time.month as i8, time.day as i8) else {
        return None;
    };
    let days = date.to_plain().days_since_min() - FIRST_DAY;
    let seconds = u64::from(days) * 86_400
        + u64::from(time.hour) * 3600
        + u64::from(time.minute) * 60
        + u64::from(time.second);
    u32::try_from(seconds).ok()
}
