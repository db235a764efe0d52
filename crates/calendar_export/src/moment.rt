// Days and times.
ghost use Rattle.std.specs.Prelude.{◌≡◌, ◌++◌, OnOk};
ghost use Rattle.pdb_values.specs.CivilTimes.{civil_of};
ghost use Rattle.calendar_export.specs.Moments.{clock_chars, day_chars, four_digits, moment_of, stamp_chars, two_digits};

use content_lines::Text;
use palm_records::Day;
use pdb_values::PalmDate;
use std::alloc::AllocError;

/// A day and a time of it.
#[derive(Clone, Copy)]
pub struct Moment {
    pub day: Day,
    pub hour: u8,
    pub minute: u8,
    pub second: u8,
}

/// The start of 1904, from which dates are counted.
const FIRST: Moment = Moment {
    day: Day {
        year: 1904,
        month: 1,
        day: 1,
    },
    hour: 0,
    minute: 0,
    second: 0,
};

/// Appends the last two digits of a number.
pub fn push_two(value: &mut Text, number: u8) -> Result<(), AllocError>
    ensures { OnOk result (value.new ≡ value.old ++ two_digits number) }
{
    value.push_digit(u16::from(number / 10))?;
    value.push_digit(u16::from(number))?;
    Ok(())
}

// Appends the last four digits of a number.
fn push_four(value: &mut Text, number: u16) -> Result<(), AllocError>
    ensures { OnOk result (value.new ≡ value.old ++ four_digits number) }
{
    value.push_digit(number / 1000)?;
    value.push_digit(number / 100)?;
    value.push_digit(number / 10)?;
    value.push_digit(number)?;
    Ok(())
}

/// Appends a day.
pub fn push_day(value: &mut Text, day: Day) -> Result<(), AllocError>
    ensures { OnOk result (value.new ≡ value.old ++ day_chars day) }
{
    push_four(value, day.year)?;
    push_two(value, day.month)?;
    push_two(value, day.day)?;
    Ok(())
}

/// Appends a time of a day.
pub fn push_clock(value: &mut Text, hour: u8, minute: u8, second: u8) -> Result<(), AllocError>
    ensures { OnOk result (value.new ≡ value.old ++ clock_chars hour minute second) }
{
    push_two(value, hour)?;
    push_two(value, minute)?;
    push_two(value, second)?;
    Ok(())
}

/// The day and the time of a date. 0 seconds are the start of 1904.
pub fn moment_of(date: PalmDate) -> Moment
    ensures { result ≡ moment_of (civil_of date) }
{
    if date.seconds() == 0 {
        return FIRST;
    }
    let wire = date.to_wire();
    Moment {
        day: Day {
            year: u16::from(wire[0]) * 256 + u16::from(wire[1]),
            month: wire[2],
            day: wire[3],
        },
        hour: wire[4],
        minute: wire[5],
        second: wire[6],
    }
}

/// Appends a day and a time of it, by the universal clock.
pub fn push_stamp(value: &mut Text, time: Moment) -> Result<(), AllocError>
    ensures { OnOk result (value.new ≡ value.old ++ stamp_chars time) }
{
    push_day(value, time.day)?;
    value.push_plain("T")?;
    push_clock(value, time.hour, time.minute, time.second)?;
    value.push_plain("Z")?;
    Ok(())
}
