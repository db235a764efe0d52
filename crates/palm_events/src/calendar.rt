// Days by their numbers.
ghost use Rattle.std.specs.Prelude.{◌≡◌, ◌+◌, ◌<◌, IsTrue};
ghost use Rattle.palm_events.specs.Calendar as calendar;
ghost use Rattle.palm_events.specs.Calendar.{day_at, is_date, weekday_of};

use crate::numbered_day::NumberedDay;
use palm_records::{Day, days_in_month};

// The number of a day's month; January 1904 has number 0.
#[tactic(auto, using(crate::proofs::CalendarLaws::date_facts))]
pub fn month_number(day: Day) -> u32
    requires { IsTrue (is_date day) }
    ensures { result ≡ calendar.month_number day }
{
    (u32::from(day.year) - 1904) * 12 + u32::from(day.month) - 1
}

// The days of the month of a number.
fn month_days(month: u32) -> u32
    requires { month < 763_584 }
    ensures { result ≡ calendar.month_days month }
{
    u32::from(days_in_month(1904 + (month / 12) as u16, (month % 12) as u8 + 1))
}

/// The days from 1904-01-01 to a day.
pub fn day_number(day: Day) -> u32
    requires { IsTrue (is_date day) }
    ensures { result ≡ calendar.day_number day }
{
    let mut number = u32::from(day.day) - 1;
    for month in 0..month_number(day) {
        number += month_days(month);
    }
    number
}

/// The weekday of a day, 0 Sunday to 6 Saturday.
pub fn weekday(day: Day) -> u8
    requires { IsTrue (is_date day) }
    ensures { result ≡ weekday_of (calendar.day_number day) }
{
    NumberedDay::of_day(day).weekday()
}

/// The day behind a day.
pub fn next_day(day: Day) -> Day
    requires date { IsTrue (is_date day) }
    requires year { day.year < u16.MAX }
    ensures { result ≡ day_at (calendar.day_number day + 1) }
{
    if day.day < days_in_month(day.year, day.month) {
        return Day {
            day: day.day + 1,
            ..day
        };
    }
    if day.month < 12 {
        return Day {
            month: day.month + 1,
            day: 1,
            ..day
        };
    }
    Day {
        year: day.year + 1,
        month: 1,
        day: 1,
    }
}
