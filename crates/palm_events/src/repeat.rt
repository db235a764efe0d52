// Repeats.
ghost use Rattle.std.specs.Prelude.{◌≡◌, ◌+◌, ◌<◌, ◌≤◌, IfOk, IfSome, IsTrue, length};
ghost use Rattle.palm_events.specs.Forms.{is_pattern, is_repeat, is_until};
ghost use Rattle.palm_events.specs.Shown.{has_weekday};
ghost use Rattle.palm_events.specs.Steps.{Reads};
ghost use Rattle.palm_events.specs.Alarms.{behind_alarm};
ghost use Rattle.palm_events.specs.Repeats.{behind_repeat, pattern_of, repeat_at, repeat_in, until_in, week_of};

use crate::alarm::behind_alarm;
use crate::days::day_in;
use crate::flags::Flags;
use crate::word::word_at;
use palm_records::{BadRecord, Day};

/// The word that says that a repeat has no last day.
const NO_DAY: u16 = 0xFFFF;

/// The length of a repeat.
const LENGTH: usize = 8;

/// Days of a week.
#[derive(Clone, Copy, Debug, PartialEq, Eq)]
pub struct Weekdays {
    /// A bit for each day, the lowest one for Sunday.
    pub bits: u8,
}

impl Weekdays {
    /// Whether a weekday, 0 Sunday to 6 Saturday, is one of them.
    pub fn has(self, weekday: u8) -> bool
        requires { weekday < 7 }
        ensures { result ≡ has_weekday self weekday }
    {
        self.bits >> weekday & 1 == 1
    }
}

/// Which of the days of a month that fall on one weekday.
#[derive(Clone, Copy, Debug, PartialEq, Eq)]
pub enum Week {
    First,
    Second,
    Third,
    Fourth,
    Last,
}

/// On which days a date comes again.
#[derive(Clone, Copy, Debug, PartialEq, Eq)]
pub enum Pattern {
    /// Each so many days.
    Daily,
    /// On these days of each so many weeks, which begin on Monday or on Sunday.
    Weekly { days: Weekdays, from_monday: bool },
    /// On a weekday, 0 Sunday to 6 Saturday, in this week of each so many months.
    MonthlyByDay { week: Week, weekday: u8 },
    /// On the same day of each so many months.
    MonthlyByDate,
    /// On the same day of the same month of each so many years.
    Yearly,
}

/// How a date comes again.
#[derive(Clone, Copy, Debug, PartialEq, Eq)]
pub struct Repeat {
    pub pattern: Pattern,
    /// Each so many days, weeks, months or years.
    pub every: u8,
    /// The last day, if there is one.
    pub until: Option<Day>,
}

// The week that a number says.
fn week_of(number: u8) -> Week
    ensures { result ≡ week_of number }
{
    match number {
        0 => Week::First,
        1 => Week::Second,
        2 => Week::Third,
        3 => Week::Fourth,
        _ => Week::Last,
    }
}

// The pattern that a kind, 1 to 5, and the bytes beside it say.
fn pattern_of(kind: u8, on: u8, first: u8) -> Option<Pattern>
    ensures pattern { result ≡ pattern_of kind on first }
    ensures form { IfSome result (λ pattern. IsTrue (is_pattern pattern)) }
{
    match kind {
        1 => Some(Pattern::Daily),
        2 if on % 128 == 0 => None,
        2 => Some(Pattern::Weekly {
            days: Weekdays { bits: on % 128 },
            from_monday: first == 1,
        }),
        3 if on > 34 => None,
        3 => Some(Pattern::MonthlyByDay {
            week: week_of(on / 7),
            weekday: on % 7,
        }),
        4 => Some(Pattern::MonthlyByDate),
        _ => Some(Pattern::Yearly),
    }
}

// The last day that stands at a place, if one does.
fn read_until(bytes: &[u8], place: usize) -> Result<Option<Day>, BadRecord>
    requires { place + 2 ≤ length bytes.now }
    ensures until { Reads (λ until. until) result (until_in place bytes.now) }
    ensures form { IfOk result (λ until. IsTrue (is_until until)) }
{
    let word = word_at(bytes, place);
    if word == NO_DAY {
        return Ok(None);
    }
    match day_in(word) {
        Some(day) => Ok(Some(day)),
        None => Err(BadRecord { place }),
    }
}

// The repeat that stands at a place.
fn read_at(place: usize, bytes: &[u8]) -> Result<Option<Repeat>, BadRecord>
    requires { place ≤ 10 }
    ensures repeat { Reads (λ repeat. repeat) result (repeat_at place bytes.now) }
    ensures form { IfOk result (λ repeat. IfSome repeat (λ repeat. IsTrue (is_repeat repeat))) }
    ensures room { IfOk result (λ repeat. place + 8 ≤ length bytes.now) }
{
    if bytes.len() < place + LENGTH {
        return Err(BadRecord { place: bytes.len() });
    }
    let kind = bytes[place];
    if kind > 5 {
        return Err(BadRecord { place });
    }
    let until = read_until(bytes, place + 2)?;
    if kind == 0 {
        return Ok(None);
    }
    let every = bytes[place + 4];
    if every == 0 {
        return Err(BadRecord { place: place + 4 });
    }
    let Some(pattern) = pattern_of(kind, bytes[place + 5], bytes[place + 6]) else {
        return Err(BadRecord { place: place + 5 });
    };
    Ok(Some(Repeat {
        pattern,
        every,
        until,
    }))
}

// The repeat of a record, if it has one.
pub fn read_repeat(flags: Flags, bytes: &[u8]) -> Result<Option<Repeat>, BadRecord>
    requires { behind_alarm flags ≤ length bytes.now }
    ensures repeat { Reads (λ repeat. repeat) result (repeat_in flags bytes.now) }
    ensures form { IfOk result (λ repeat. IfSome repeat (λ repeat. IsTrue (is_repeat repeat))) }
    ensures room { IfOk result (λ repeat. behind_repeat flags ≤ length bytes.now) }
{
    if !flags.repeat {
        return Ok(None);
    }
    read_at(behind_alarm(flags), bytes)
}

// The place behind the repeat.
pub fn behind_repeat(flags: Flags) -> usize
    ensures { result ≡ behind_repeat flags }
{
    if flags.repeat {
        behind_alarm(flags) + LENGTH
    } else {
        behind_alarm(flags)
    }
}
