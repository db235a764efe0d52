// What stands behind the key of a line.
ghost use Rattle.std.specs.Prelude.{◌≡◌, ◌≤◌, ◌*◌, codes, length, bytes_eq, option_and_then};
ghost use Rattle.std.specs.Option.{option_map};
ghost use Rattle.hex.specs.Hex.{encode_lower};
ghost use Rattle.pdb_values.specs.Users.{password_of, user_name_of};
ghost use Rattle.folder_files.specs.Hexadecimal as hexadecimal;
ghost use Rattle.folder_files.specs.Hexadecimal.{bytes_in, few_bytes_in};
ghost use Rattle.folder_files.specs.Reading as reading;

use arrayvec::ArrayVec;
use hex::{FromHex, encode_to_slice};
use pdb_values::{PalmDate, Password, UserName};

// The most bytes that a name or a password has.
const MOST: usize = 40;

// Whether a text is these bytes in hexadecimal of lower case.
fn is_text_of(text: &[u8], bytes: &[u8]) -> bool
    requires { length bytes.now ≤ 40 }
    ensures { result ≡ bytes_eq (encode_lower bytes.now) text.now }
{
    let mut digits = [0; 2 * MOST];
    let digits = &mut digits[..2 * bytes.len()];
    if encode_to_slice(bytes, digits).is_err() {
        return false;
    }
    &*digits == text
}

// Exactly so many bytes, where the text is that of them.
#[tactic(auto, unfolding(crate::specs::Hexadecimal::bytes_in))]
fn bytes_of<const N: usize>(text: &[u8]) -> Option<[u8; N]>
    requires { N ≤ 40 }
    ensures { result ≡ bytes_in N text.now }
{
    let bytes = <[u8; N]>::from_hex(text).ok()?;
    if is_text_of(text, &bytes) {
        Some(bytes)
    } else {
        None
    }
}

// None to 40 bytes, where the text is that of them.
#[tactic(auto, unfolding(crate::specs::Hexadecimal::few_bytes_in, crate::specs::Hexadecimal::bytes_in))]
fn few_bytes_of(text: &[u8]) -> Option<ArrayVec<u8, 40>>
    ensures { option_map (λ bytes. bytes.items) result ≡ few_bytes_in text.now }
{
    let mut bytes = ArrayVec::new();
    if text == b"-".as_slice() {
        return Some(bytes);
    }
    if text.is_empty() || text.len() > 2 * MOST {
        return None;
    }
    let mut room = [0; MOST];
    let found = &mut room[..text.len() / 2];
    hex::decode_to_slice(text, found).ok()?;
    if !is_text_of(text, found) {
        return None;
    }
    bytes.try_extend_from_slice(found).ok()?;
    Some(bytes)
}

// The number of eight digits.
pub(crate) fn number_of(text: &[u8]) -> Option<u32>
    ensures { result ≡ reading.number_in text.now }
{
    let bytes = bytes_of::<4>(text)?;
    Some(u32::from_be_bytes(bytes))
}

// A number above 0.
pub(crate) fn positive_of(text: &[u8]) -> Option<u32>
    ensures { result ≡ option_and_then reading.if_positive (reading.number_in text.now) }
{
    let number = number_of(text)?;
    if number == 0 {
        return None;
    }
    Some(number)
}

// A date, whose last byte on the wire is zero.
pub(crate) fn date_of(text: &[u8]) -> Option<PalmDate>
    ensures { result ≡ option_and_then hexadecimal.date_in (bytes_in 8 text.now) }
{
    let bytes = bytes_of::<8>(text)?;
    if bytes[7] != 0 {
        return None;
    }
    PalmDate::from_wire(bytes).ok()
}

// The name of a user.
pub(crate) fn name_of(text: &[u8]) -> Option<UserName>
    ensures { result ≡ option_and_then user_name_of (few_bytes_in text.now) }
{
    let bytes = few_bytes_of(text)?;
    UserName::new(bytes.as_slice())
}

// A password.
pub(crate) fn word_of(text: &[u8]) -> Option<Password>
    ensures { result ≡ option_and_then password_of (few_bytes_in text.now) }
{
    let bytes = few_bytes_of(text)?;
    Password::new(bytes.as_slice())
}

// The number of a desktop's slots, 1 to 16 in decimal.
pub(crate) fn count_of(text: &[u8]) -> Option<usize>
    ensures { result ≡ reading.count_in text.now }
{
    match text {
        [digit @ b'1'..=b'9'] => Some(usize::from(*digit - b'0')),
        [b'1', digit @ b'0'..=b'6'] => Some(usize::from(*digit - b'0') + 10),
        _ => None,
    }
}

// What stands behind the key at the front of a text.
#[tactic(auto, unfolding(crate::specs::Reading::behind))]
pub(crate) fn behind<'a>(key: &[u8], text: &'a [u8]) -> Option<&'a [u8]>
    ensures { option_map (λ rest. rest.now) result ≡ reading.behind key.now text.now }
{
    if text.starts_with(key) {
        Some(&text[key.len()..])
    } else {
        None
    }
}

// So many bytes behind a key, and what stands behind them.
#[tactic(auto, unfolding(crate::specs::Reading::field_at))]
fn field_of<'a>(key: &[u8], size: usize, text: &'a [u8]) -> Option<(&'a [u8], &'a [u8])>
    ensures { option_map (λ parts. (parts.0.now, parts.1.now)) result
        ≡ reading.field_at key.now size text.now }
{
    let rest = behind(key, text)?;
    if rest.len() < size {
        None
    } else {
        Some(rest.split_at(size))
    }
}

// The user of a slot, when it was synchronized last, and the name.
#[tactic(auto, unfolding(crate::specs::Reading::slot_in))]
pub(crate) fn slot_of(text: &[u8]) -> Option<(u32, PalmDate, UserName)>
    ensures { result ≡ reading.slot_in text.now }
{
    let (user, rest) = field_of(b"user ", 8, text)?;
    let (last, rest) = field_of(b" last ", 16, rest)?;
    let name = behind(b" name ", rest)?;
    let user = number_of(user)?;
    let last = date_of(last)?;
    let name = name_of(name)?;
    Some((user, last, name))
}
