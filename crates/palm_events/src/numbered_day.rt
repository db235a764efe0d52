// Days with their numbers.
ghost use Rattle.std.specs.Prelude.{◌≡◌, ◌+◌, ◌<◌, ◌≤◌, IsTrue};
ghost use Rattle.palm_events.specs.Calendar as calendar;
ghost use Rattle.palm_events.specs.Calendar.{day_at, day_number, is_date, week_number, weekday_of};

use crate::calendar::{day_number, month_number, next_day};
use palm_records::Day;

// A day with its number.
#[derive(Clone, Copy)]
pub struct NumberedDay {
    pub day: Day,
    pub number: u32,
    ghost same: { day ≡ day_at number },
}

impl NumberedDay {
    // A day with its number.
    pub fn of_day(day: Day) -> NumberedDay
        requires { IsTrue (is_date day) }
        ensures { result.number ≡ day_number day }
    {
        NumberedDay {
            day,
            number: day_number(day),
        }
    }

    // The next day.
    pub fn next(self) -> NumberedDay
        requires { self.number < 1_000_000 }
        ensures { result.number ≡ self.number + 1 }
    {
        NumberedDay {
            day: next_day(self.day),
            number: self.number + 1,
        }
    }

    // Its weekday, 0 Sunday to 6 Saturday.
    pub fn weekday(self) -> u8
        ensures { result ≡ weekday_of self.number }
    {
        ((self.number % 7 + 5) % 7) as u8
    }

    // The number of its week, where weeks begin on a weekday.
    fn week(self, first: u8) -> u32
        requires day { self.number < 2_000_000 }
        requires first { first ≤ 6 }
        ensures { result ≡ week_number first self.number }
    {
        (self.number + 12 - u32::from(first)) / 7
    }

    // The weeks from another one's to its own.
    pub fn weeks_from(self, start: NumberedDay, first: u8) -> u32
        requires day { self.number < 2_000_000 }
        requires order { start.number ≤ self.number }
        requires first { first ≤ 6 }
        ensures { result ≡ calendar.weeks_between first start.number self.number }
    {
        self.week(first) - start.week(first)
    }

    // The months from another one's to its own.
    pub fn months_from(self, start: NumberedDay) -> u32
        requires { start.number ≤ self.number }
        ensures { result ≡ calendar.months_between start.number self.number }
    {
        month_number(self.day) - month_number(start.day)
    }

    // The years from another one's to its own.
    pub fn years_from(self, start: NumberedDay) -> u32
        requires { start.number ≤ self.number }
        ensures { result ≡ calendar.years_between start.number self.number }
    {
        u32::from(self.day.year - start.day.year)
    }

    // Whether it has the day of the month that another one has.
    pub fn has_day_of(self, start: NumberedDay) -> bool
        ensures { result ≡ calendar.is_same_day start.number self.number }
    {
        self.day.day == start.day.day
    }

    // Whether it has the month that another one has.
    pub fn has_month_of(self, start: NumberedDay) -> bool
        ensures { result ≡ calendar.is_same_month start.number self.number }
    {
        self.day.month == start.day.month
    }
}
