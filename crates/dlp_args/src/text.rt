// Texts that end with a zero, and names by their lengths.
ghost use Rattle.std.specs.Prelude.{◌≡◌, ◌==◌, ◌<◌, length, position, IfSome};
ghost use Rattle.std.specs.Option.{option_map};
ghost use Rattle.dlp_args.specs.CellReading.{text_in, short_text_in, maybe_text_in, names_in};

use crate::number::take_u8;

// The place of the first zero.
fn first_zero(bytes: &[u8]) -> Option<usize>
    ensures first { result ≡ position (λ byte. byte == 0) bytes.now }
    ensures bound { IfSome result (λ end. end < length bytes.now) }
{
    bytes.iter().position(|byte| *byte == 0)
}

/// The text of bytes with exactly one zero, at their end, or None for other bytes.
#[tactic(auto, unfolding(crate::specs::CellReading::text_in))]
pub fn text_of(bytes: &[u8]) -> Option<&[u8]>
    ensures { option_map (λ text. text.now) result ≡ text_in bytes.now }
{
    let end = first_zero(bytes)?;
    if end + 1 != bytes.len() {
        return None;
    }
    Some(&bytes[..end])
}

/// Such a text of at most so many bytes.
#[tactic(auto, unfolding(crate::specs::CellReading::short_text_in))]
pub fn short_text_of(limit: usize, bytes: &[u8]) -> Option<&[u8]>
    ensures { option_map (λ text. text.now) result ≡ short_text_in limit bytes.now }
{
    let text = text_of(bytes)?;
    if limit < text.len() {
        return None;
    }
    Some(text)
}

/// Such a text of at most so many bytes, or `Some(None)` for no bytes.
#[tactic(auto, unfolding(crate::specs::CellReading::maybe_text_in))]
pub fn maybe_text_of(limit: usize, bytes: &[u8]) -> Option<Option<&[u8]>>
    ensures { option_map (λ text. option_map (λ text. text.now) text) result
        ≡ maybe_text_in limit bytes.now }
{
    match bytes {
        [] => Some(None),
        [_, ..] => Some(Some(short_text_of(limit, bytes)?)),
    }
}

/// The two runs of bytes behind their lengths, one byte each, or None where they do not end with the bytes.
#[tactic(auto, unfolding(crate::specs::CellReading::names_in, crate::specs::CellReading::some_at))]
pub fn names_of(bytes: &[u8]) -> Option<(&[u8], &[u8])>
    ensures names { option_map (λ names. (names.0.now, names.1.now)) result ≡ names_in bytes.now }
    ensures short { IfSome result (λ names. length names.0.now < 256) }
{
    let (name_len, rest) = take_u8(bytes)?;
    let (password_len, rest) = take_u8(rest)?;
    if rest.len() < name_len as usize {
        return None;
    }
    let (name, password) = rest.split_at(name_len as usize);
    if password.len() != password_len as usize {
        return None;
    }
    Some((name, password))
}
