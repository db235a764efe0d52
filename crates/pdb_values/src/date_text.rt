// Civil dates and times as text.
ghost use Rattle.std.specs.Prelude.{◌≡◌, ◌≤◌, bytes_eq};
ghost use Rattle.pdb_values.specs.PalmDates.{text_of, digit_at, two_digits_at, in_text};

use crate::civil::CivilTime;

// The digit at a place, or the nearest digit where there is none.
fn digit(text: &[u8], place: usize) -> u8
    ensures digit { result ≡ digit_at text.now place }
    ensures bound { result ≤ 9 }
{
    match text.get(place) {
        Some(byte) => byte.saturating_sub(b'0').min(9),
        None => 0,
    }
}

// The number of two digits.
fn two_digits(text: &[u8], place: usize) -> u8
    requires { place ≤ 17 }
    ensures number { result ≡ two_digits_at text.now place }
    ensures bound { result ≤ 99 }
{
    digit(text, place) * 10 + digit(text, place + 1)
}

// What the digits of a text say.
#[tactic(auto, unfolding(crate::specs::PalmDates::in_text))]
pub fn civil_in(text: &[u8]) -> CivilTime
    ensures time { result ≡ in_text text.now }
    ensures year { result.year ≤ 9999 }
    ensures month { result.month ≤ 99 }
    ensures day { result.day ≤ 99 }
    ensures hour { result.hour ≤ 99 }
    ensures minute { result.minute ≤ 99 }
    ensures second { result.second ≤ 99 }
{
    CivilTime {
        year: u16::from(two_digits(text, 0)) * 100 + u16::from(two_digits(text, 2)),
        month: two_digits(text, 5),
        day: two_digits(text, 8),
        hour: two_digits(text, 11),
        minute: two_digits(text, 14),
        second: two_digits(text, 17),
    }
}

// Whether the text is exactly what is written of a date and time.
#[tactic(auto, unfolding(crate::specs::PalmDates::text_of))]
pub fn is_text_of(text: &[u8], time: CivilTime) -> bool
    requires year { time.year ≤ 9999 }
    requires month { time.month ≤ 99 }
    requires day { time.day ≤ 99 }
    requires hour { time.hour ≤ 99 }
    requires minute { time.minute ≤ 99 }
    requires second { time.second ≤ 99 }
    ensures { result ≡ bytes_eq text.now (text_of time) }
{
    let written = [
        b'0' + (time.year / 1000) as u8,
        b'0' + (time.year / 100 % 10) as u8,
        b'0' + (time.year / 10 % 10) as u8,
        b'0' + (time.year % 10) as u8,
        b'-',
        b'0' + time.month / 10,
        b'0' + time.month % 10,
        b'-',
        b'0' + time.day / 10,
        b'0' + time.day % 10,
        b'T',
        b'0' + time.hour / 10,
        b'0' + time.hour % 10,
        b':',
        b'0' + time.minute / 10,
        b'0' + time.minute % 10,
        b':',
        b'0' + time.second / 10,
        b'0' + time.second % 10,
    ];
    text == written.as_slice()
}
