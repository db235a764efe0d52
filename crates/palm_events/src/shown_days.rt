// The days that a record shows.
ghost use Rattle.std.specs.Prelude.{◌≡◌, ℕ, ◌<◌, ◌≤◌, false, IfNone, IfSome, IsTrue, Some, option_map};
ghost use Rattle.palm_events.specs.Calendar.{day_at, day_number, is_date};
ghost use Rattle.palm_events.specs.Events.{event_value};
ghost use Rattle.palm_events.specs.Forms.{IsEvent, is_repeat, is_until};
ghost use Rattle.palm_events.specs.Shown as shown;
ghost use Rattle.palm_events.specs.Shown.{IsFirstShown, first_shown, shows};

use crate::calendar::day_number;
use crate::event::Event;
use crate::numbered_day::NumberedDay;
use crate::repeat::{Pattern, Repeat, Week};
use palm_records::{Day, days_in_month};

/// Within how many days from its date a record that shows any day shows its first one.
const DAYS: u32 = 8000;

// Whether a day is the one of those of its month with its weekday that a week means.
fn is_week(week: Week, day: NumberedDay) -> bool
    ensures { result ≡ shown.is_week week (day_at day.number) }
{
    let number = (day.day.day - 1) / 7;
    match week {
        Week::First => number == 0,
        Week::Second => number == 1,
        Week::Third => number == 2,
        Week::Fourth => number == 3,
        Week::Last => day.day.day + 7 > days_in_month(day.day.year, day.day.month),
    }
}

// Whether so many are a multiple of the frequency.
fn is_turn(every: u8, count: u32) -> bool
    requires { 0 < every }
    ensures { result ≡ shown.is_turn every count }
{
    count % u32::from(every) == 0
}

// The weekday with which weeks begin.
pub fn first_weekday(from_monday: bool) -> u8
    ensures { result ≡ shown.first_weekday from_monday }
{
    if from_monday { 1 } else { 0 }
}

// Whether a pattern that begins on one day has another one.
fn has_day(pattern: Pattern, every: u8, start: NumberedDay, day: NumberedDay) -> bool
    requires every { 0 < every }
    requires order { start.number ≤ day.number }
    requires few { day.number < 2_000_000 }
    ensures { result ≡ shown.has_day pattern every start.number day.number }
{
    match pattern {
        Pattern::Daily => is_turn(every, day.number - start.number),
        Pattern::Weekly { days, from_monday } => days.has(day.weekday())
            && is_turn(every, day.weeks_from(start, first_weekday(from_monday))),
        Pattern::MonthlyByDay { week, weekday } => day.weekday() == weekday
            && is_week(week, day)
            && is_turn(every, day.months_from(start)),
        Pattern::MonthlyByDate => day.has_day_of(start) && is_turn(every, day.months_from(start)),
        Pattern::Yearly => day.has_day_of(start)
            && day.has_month_of(start)
            && is_turn(every, day.years_from(start)),
    }
}

// The number of a last day.
fn last_number(until: Option<Day>) -> Option<u32>
    requires { IsTrue (is_until until) }
    ensures { result ≡ shown.last_number until }
{
    match until {
        Some(day) => Some(day_number(day)),
        None => None,
    }
}

// Whether a number is not behind the last one.
fn is_up_to(last: Option<u32>, number: u32) -> bool
    ensures { result ≡ shown.is_up_to last number }
{
    match last {
        Some(last) => number <= last,
        None => true,
    }
}

// Whether a repeat that begins on one day has another one; its last day has this number.
fn repeats(repeat: Repeat, last: Option<u32>, start: NumberedDay, day: NumberedDay) -> bool
    requires form { IsTrue (is_repeat repeat) }
    requires last { last ≡ shown.last_number repeat.until }
    requires order { start.number ≤ day.number }
    requires few { day.number < 2_000_000 }
    ensures { result ≡ shown.repeats (Some repeat) start.number day.number }
{
    is_up_to(last, day.number) && has_day(repeat.pattern, repeat.every, start, day)
}

/// The first day that a record shows, if it shows any: its own date, but where its pattern does not have that, or where
/// the last date is before it.
pub fn first_day(event: &Event<'_>) -> Option<Day>
    requires { IsEvent (event_value event.now) }
    ensures value { result ≡ option_map day_at (first_shown (event_value event.now)) }
    ensures date { IfSome result (λ day. IsTrue (is_date day)) }
    ensures first { IfSome result (λ day. IsFirstShown (event_value event.now) (day_number day)) }
    ensures none { IfNone result ((number : ℕ) → shows (event_value event.now) number ≡ false) }
{
    let Some(repeat) = event.repeat else {
        return Some(event.date);
    };
    let last = last_number(repeat.until);
    let start = NumberedDay::of_day(event.date);
    let mut day = start;
    for _ in 0..DAYS {
        if repeats(repeat, last, start, day) {
            return Some(day.day);
        }
        day = day.next();
    }
    None
}
