// Parts of a reply that is written again.
ghost use Rattle.std.specs.Prelude.{◌≡◌, ◌==◌, ◌+◌, ◌≤◌, ◌<◌, ◌^◌, ◌++◌, drop, is_some, length, take};
ghost use Rattle.std.specs.List.{position};
ghost use Rattle.port_link.specs.Mended as mended;

use dlp_args::{append, take_8};
use dlp_commands::Message;
use pdb_values::PalmDate;

// The first bytes, at most so many.
pub(crate) fn front_of(bytes: &[u8], count: usize) -> &[u8]
    ensures front { result.now ≡ take count bytes.now }
    ensures short { length result.now ≤ count }
    ensures within { length result.now ≤ length bytes.now }
{
    match bytes.get(..count) {
        Some(front) => front,
        None => bytes,
    }
}

// The bytes from a place on.
pub(crate) fn from(bytes: &[u8], at: usize) -> &[u8]
    ensures { result.now ≡ drop at bytes.now }
{
    bytes.get(at..).unwrap_or(&[])
}

// So many bytes from a place on.
pub(crate) fn part_of(bytes: &[u8], at: usize, count: usize) -> &[u8]
    ensures part { result.now ≡ mended.part at count bytes.now }
    ensures short { length result.now ≤ count }
{
    front_of(from(bytes, at), count)
}

// The byte at a place, or 0 where there is none.
pub(crate) fn byte_in(bytes: &[u8], at: usize) -> u8
    ensures { result ≡ mended.byte_in at bytes.now }
{
    match from(bytes, at) {
        [first, ..] => *first,
        [] => 0,
    }
}

// The number in the first two bytes. A byte that isn't there is 0.
pub(crate) fn half_in(bytes: &[u8]) -> usize
    ensures number { result ≡ mended.half_in bytes.now }
    ensures bound { result < 2 ^ 16 }
{
    usize::from(byte_in(bytes, 0)) * 256 + usize::from(byte_in(bytes, 1))
}

// The place of the first zero.
fn first_zero(bytes: &[u8]) -> Option<usize>
    ensures { result ≡ position (λ byte. byte == 0) bytes.now }
{
    bytes.iter().position(|byte| *byte == 0)
}

// What stands before the first zero, or all.
pub(crate) fn until_zero(bytes: &[u8]) -> &[u8]
    ensures text { result.now ≡ mended.until_zero bytes.now }
    ensures short { length result.now ≤ length bytes.now }
{
    match first_zero(bytes) {
        Some(end) => front_of(bytes, end),
        None => bytes,
    }
}

// Appends so many bytes from a place on.
pub(crate) fn put_part(bytes: &[u8], at: usize, count: usize, out: &mut Message)
    requires { length out.old + count ≤ 65535 }
    ensures part { out.new ≡ out.old ++ mended.part at count bytes.now }
    ensures short { length out.new ≤ length out.old + count }
{
    append(out, part_of(bytes, at, count));
}

// The date of the eight bytes at the front, if there is one.
#[tactic(auto, unfolding(dlp_args::specs::CellReading::some_at))]
fn date_in(bytes: &[u8]) -> Option<PalmDate>
    ensures { is_some result ≡ mended.begins_date bytes.now }
{
    let (date, _rest) = take_8(bytes)?;
    match PalmDate::from_wire(date) {
        Ok(date) => Some(date),
        Err(_) => None,
    }
}

// Appends the date at a place.
pub(crate) fn put_date(bytes: &[u8], at: usize, out: &mut Message)
    requires { length out.old + 8 ≤ 65535 }
    ensures date { out.new ≡ out.old ++ mended.date_again (drop at bytes.now) }
    ensures size { length out.new ≡ length out.old + 8 }
{
    let rest = from(bytes, at);
    if date_in(rest).is_some() {
        append(out, front_of(rest, 8));
    } else {
        append(out, &[0, 0, 0, 0, 0, 0, 0, 0]);
    }
}
