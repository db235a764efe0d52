// Days in records.
ghost use Rattle.std.specs.Prelude.{◌≡◌};
ghost use Rattle.pdb_values.specs.CivilTimes.{is_leap_year, days_in_month};
ghost use Rattle.palm_records.specs.Days.{day_in};

/// A day of the calendar.
#[derive(Clone, Copy, Debug, PartialEq, Eq)]
pub struct Day {
    /// From 1904 to 2031.
    pub year: u16,
    /// From 1.
    pub month: u8,
    /// From 1.
    pub day: u8,
}

fn is_leap_year(year: u16) -> bool
    ensures { result ≡ is_leap_year year }
{
    year % 4 == 0 && (year % 100 != 0 || year % 400 == 0)
}

pub fn days_in_month(year: u16, month: u8) -> u8
    ensures { result ≡ days_in_month year month }
{
    match month {
        2 if is_leap_year(year) => 29,
        2 => 28,
        4 | 6 | 9 | 11 => 30,
        _ => 31,
    }
}

// The day that a word says, where the calendar has it.
pub fn day_in(word: u16) -> Option<Day>
    ensures { result ≡ day_in word }
{
    let year = 1904 + word / 512;
    let month = (word / 32 % 16) as u8;
    let day = (word % 32) as u8;
    if month < 1 || month > 12 {
        return None;
    }
    if day < 1 || day > days_in_month(year, month) {
        return None;
    }
    Some(Day { year, month, day })
}
