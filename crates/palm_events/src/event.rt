// Dates of the Date Book.
ghost use Rattle.std.specs.Prelude.{◌≡◌, ◌≤◌, IfOk, IsTrue, length};
ghost use Rattle.palm_events.specs.Steps.{Reads};
ghost use Rattle.palm_events.specs.Events.{ReadsEvent, date_in, event_in, event_value};
ghost use Rattle.palm_events.specs.Forms.{IsEvent, is_record_day};

use crate::alarm::{Alarm, read_alarm};
use crate::days::day_in;
use crate::exceptions::{Exceptions, behind_exceptions, read_exceptions};
use crate::flags::Flags;
use crate::repeat::{Repeat, read_repeat};
use crate::strings::{behind_text, read_text};
use crate::times::{Times, read_times};
use crate::word::word_at;
use palm_records::{BadRecord, Day};

/// The place of the date.
const DATE: usize = 4;

/// The place of the word that says what stands behind the head.
const FLAGS: usize = 6;

/// The length of the head.
const HEAD: usize = 8;

/// A date of the Date Book, whose texts and exceptions lie in its record.
#[derive(Clone, Copy)]
pub struct Event<'a> {
    /// When it begins and ends on its day, if it has a time.
    pub time: Option<Times>,
    pub date: Day,
    /// The alarm, if it rings.
    pub alarm: Option<Alarm>,
    pub repeat: Option<Repeat>,
    /// The days on which it does not come again.
    pub exceptions: Exceptions<'a>,
    pub description: &'a [u8],
    pub note: &'a [u8],
}

// The date of a record.
fn read_date(bytes: &[u8]) -> Result<Day, BadRecord>
    requires { 6 ≤ length bytes.now }
    ensures day { Reads (λ day. day) result (date_in bytes.now) }
    ensures form { IfOk result (λ day. IsTrue (is_record_day day)) }
{
    match day_in(word_at(bytes, DATE)) {
        Some(day) => Ok(day),
        None => Err(BadRecord { place: DATE }),
    }
}

/// The date of a record's bytes, or the place of the first rule, from the left, that they break: their length where they
/// are too few; 0 where a time is none of a clock; where a date, a last date or an exception begins that the calendar does
/// not have; where an alarm's unit is none of the three; where a repeat's kind is above 5, its frequency 0, or the byte
/// with its days has none; and where a string begins that no zero byte ends.
#[tactic(auto, unfolding(crate::specs::Events::parts_in))]
pub fn read_event(bytes: &[u8]) -> Result<Event<'_>, BadRecord>
    ensures said { ReadsEvent result (event_in bytes.now) }
    ensures form { IfOk result (λ event. IsEvent (event_value event)) }
{
    if bytes.len() < HEAD {
        return Err(BadRecord { place: bytes.len() });
    }
    let time = read_times(bytes)?;
    let date = read_date(bytes)?;
    let flags = Flags::of_word(word_at(bytes, FLAGS));
    let alarm = read_alarm(flags, bytes)?;
    let repeat = read_repeat(flags, bytes)?;
    let exceptions = read_exceptions(flags, bytes)?;
    let begin = behind_exceptions(flags, exceptions);
    let description = read_text(flags.description, begin, bytes)?;
    let begin = behind_text(flags.description, begin, description);
    let note = read_text(flags.note, begin, bytes)?;
    Ok(Event {
        time,
        date,
        alarm,
        repeat,
        exceptions,
        description,
        note,
    })
}
