// Exceptions: days on which a date that repeats does not come.
ghost use Rattle.std.specs.Prelude.{◌≡◌, ℕ, ◌+◌, ◌*◌, ◌<◌, ◌≤◌, ◌↔◌, [], IfNone, IfOk, IsTrue, length, slice_get};
ghost use Rattle.palm_events.specs.Steps.{Reads};
ghost use Rattle.palm_events.specs.Repeats.{behind_repeat};
ghost use Rattle.palm_events.specs.Forms.{AreRecordDays, is_record_day};
ghost use Rattle.palm_events.specs.Words.{word_at};
ghost use Rattle.palm_records.specs.Days.{day_of};
ghost use Rattle.palm_events.specs.Exceptions.{behind_exceptions, days_fault, days_in, exceptions_at, exceptions_in};

use crate::days::{day_in, day_of};
use crate::flags::Flags;
use crate::repeat::behind_repeat;
use crate::word::word_at;
use palm_records::{BadRecord, Day};

/// The days on which a date does not come, which lie in its record.
#[derive(Clone, Copy)]
pub struct Exceptions<'a> {
    /// Two bytes for each.
    pub bytes: &'a [u8],
}

impl Exceptions<'_> {
    /// How many there are.
    pub fn len(&self) -> usize
        ensures { result ≡ length (days_in self.now.bytes.now) }
    {
        self.bytes.len() / 2
    }

    /// Whether there is none.
    pub fn is_empty(&self) -> bool
        ensures { IsTrue result ↔ (days_in self.now.bytes.now ≡ []) }
    {
        self.bytes.len() < 2
    }

    /// The one of an index, from 0.
    pub fn get(&self, index: usize) -> Option<Day>
        ensures { result ≡ slice_get (days_in self.now.bytes.now) index }
    {
        if index < self.bytes.len() / 2 {
            Some(day_of(word_at(self.bytes, 2 * index)))
        } else {
            None
        }
    }
}

// The place of the first of so many days from a place on that the calendar does not have.
fn days_fault(count: usize, place: usize, bytes: &[u8]) -> Option<usize>
    requires few { count < 65_536 }
    requires room { place + 2 * count ≤ length bytes.now }
    ensures fault { result ≡ days_fault count place bytes.now }
    ensures form { IfNone result ((index : ℕ) → index < count
        → IsTrue (is_record_day (day_of (word_at bytes.now (place + 2 * index))))) }
{
    for index in 0..count {
        let at = place + 2 * index;
        if day_in(word_at(bytes, at)).is_none() {
            return Some(at);
        }
    }
    None
}

// The exceptions that stand at a place.
fn read_at(place: usize, bytes: &[u8]) -> Result<Exceptions<'_>, BadRecord>
    requires { place ≤ 18 }
    ensures days { Reads (λ days. days.bytes.now) result (exceptions_at place bytes.now) }
    ensures form { IfOk result (λ days. AreRecordDays (days_in days.bytes.now)) }
    ensures room { IfOk result (λ days. place + 2 + length days.bytes.now ≤ length bytes.now) }
{
    if bytes.len() < place + 2 {
        return Err(BadRecord { place: bytes.len() });
    }
    let count = usize::from(word_at(bytes, place));
    let begin = place + 2;
    let end = begin + 2 * count;
    if bytes.len() < end {
        return Err(BadRecord { place: bytes.len() });
    }
    if let Some(place) = days_fault(count, begin, bytes) {
        return Err(BadRecord { place });
    }
    Ok(Exceptions {
        bytes: &bytes[begin..end],
    })
}

// The exceptions of a record.
pub fn read_exceptions(flags: Flags, bytes: &[u8]) -> Result<Exceptions<'_>, BadRecord>
    requires { behind_repeat flags ≤ length bytes.now }
    ensures days { Reads (λ days. days.bytes.now) result (exceptions_in flags bytes.now) }
    ensures form { IfOk result (λ days. AreRecordDays (days_in days.bytes.now)) }
    ensures room { IfOk result (λ days. behind_exceptions flags days.bytes.now ≤ length bytes.now) }
{
    if !flags.exceptions {
        return Ok(Exceptions { bytes: &[] });
    }
    read_at(behind_repeat(flags), bytes)
}

// The place behind the exceptions.
pub fn behind_exceptions(flags: Flags, days: Exceptions<'_>) -> usize
    ensures { result ≡ behind_exceptions flags days.entry.bytes.now }
{
    if flags.exceptions {
        behind_repeat(flags) + 2 + days.bytes.len()
    } else {
        behind_repeat(flags)
    }
}
