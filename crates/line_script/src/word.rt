// The words of a line.
ghost use Rattle.std.specs.Prelude.{◌≡◌, ◌≤◌, ◌<◌, ◌==◌, ◌*◌, length, bytes_eq, position, IfSome};
ghost use Rattle.std.specs.Option.{option_map};
ghost use Rattle.hex.specs.Hex.{encode_lower};
ghost use Rattle.line_script.specs.Words.{bytes_in as bytes_by, number_in as number_by, short_in as short_by, split_at_space as split_by};

use arrayvec::ArrayVec;
use hex::encode_to_slice;
use itoa::Buffer;

// The most bytes that stand in a line.
const MOST: usize = 1040;

// Where a byte first stands.
pub(crate) fn place_of(sought: u8, bytes: &[u8]) -> Option<usize>
    ensures first { result ≡ position (λ byte. byte == sought) bytes.now }
    ensures bound { IfSome result (λ place. place < length bytes.now) }
{
    bytes.iter().position(|byte| *byte == sought)
}

// What stands before the first space, and what stands behind it.
#[tactic(auto, unfolding(crate::specs::Words::split_at_space))]
pub(crate) fn split_at_space(words: &[u8]) -> Option<(&[u8], &[u8])>
    ensures { option_map (λ parts. (parts.0.now, parts.1.now)) result ≡ split_by words.now }
{
    let end = place_of(b' ', words)?;
    Some((&words[..end], &words[end + 1..]))
}

// The number of 32 bits that a word is.
pub(crate) fn number_in(word: &[u8]) -> Option<u32>
    ensures { result ≡ number_by word.now }
{
    let text = match str::from_utf8(word) {
        Ok(text) => text,
        Err(_) => return None,
    };
    let number = match text.parse::<u32>() {
        Ok(number) => number,
        Err(_) => return None,
    };
    let mut buffer = Buffer::new();
    if buffer.format(number) == text {
        Some(number)
    } else {
        None
    }
}

// The number of 16 bits that a word is.
#[tactic(auto, unfolding(crate::specs::Words::short_in))]
pub(crate) fn short_in(word: &[u8]) -> Option<u16>
    ensures { result ≡ short_by word.now }
{
    let number = number_in(word)?;
    if number > 0xFFFF {
        return None;
    }
    Some(number as u16)
}

// Whether a text is these bytes in hexadecimal of lower case.
fn is_text_of(text: &[u8], bytes: &[u8]) -> bool
    requires { length bytes.now ≤ 1040 }
    ensures { result ≡ bytes_eq (encode_lower bytes.now) text.now }
{
    let mut digits = [0; 2 * MOST];
    let digits = &mut digits[..2 * bytes.len()];
    if encode_to_slice(bytes, digits).is_err() {
        return false;
    }
    &*digits == text
}

// The bytes that a word is, at least one and at most as many as there is room for.
#[tactic(auto, unfolding(crate::specs::Words::bytes_in))]
pub(crate) fn bytes_in<const N: usize>(word: &[u8]) -> Option<ArrayVec<u8, N>>
    requires { N ≤ 1040 }
    ensures { option_map (λ bytes. bytes.items) result ≡ bytes_by N word.now }
{
    if word.is_empty() || word.len() > 2 * N {
        return None;
    }
    let mut room = [0; MOST];
    let found = &mut room[..word.len() / 2];
    hex::decode_to_slice(word, found).ok()?;
    if !is_text_of(word, found) {
        return None;
    }
    let mut bytes = ArrayVec::new();
    bytes.try_extend_from_slice(found).ok()?;
    Some(bytes)
}
