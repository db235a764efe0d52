// The name that a stem stands for.
ghost use Rattle.std.specs.Prelude.{◌≡◌, ◌<◌, length, option_map, IfSome};
ghost use Rattle.pdb_values.specs.Stems.{is_plain as stands_alone};
ghost use Rattle.run_words.specs.StemNames as spec;

use arrayvec::ArrayVec;
use pdb_values::DbName;

// Whether a byte stands for itself.
fn stands_for_itself(byte: u8) -> bool
    ensures { result ≡ stands_alone byte }
{
    byte.is_ascii_alphanumeric() || byte == b'_' || byte == b'-'
}

// The number of a digit of upper-case hexadecimal, and 16 for any other byte.
fn digit_number(byte: u8) -> u8
    ensures { result ≡ spec.digit_number byte }
{
    match byte {
        b'0'..=b'9' => byte - b'0',
        b'A'..=b'F' => byte - b'A' + 10,
        _ => 16,
    }
}

// The byte of two digits, where it is one that doesn't stand for itself.
fn escaped(high: u8, low: u8) -> Option<u8>
    ensures { result ≡ spec.escaped high low }
{
    let high = digit_number(high);
    let low = digit_number(low);
    if high >= 16 || low >= 16 {
        return None;
    }
    let byte = high * 16 + low;
    if stands_for_itself(byte) {
        None
    } else {
        Some(byte)
    }
}

// The first byte that a stem stands for, and the rest of the stem.
fn first_byte(stem: &[u8]) -> Option<(u8, &[u8])>
    ensures value { option_map (λ first. (first.0, first.1.now)) result
        ≡ spec.first_of stem.entry.now }
    ensures shorter { IfSome result (λ first. length first.1.now < length stem.entry.now) }
{
    match stem {
        [byte, rest @ ..] if stands_for_itself(*byte) => Some((*byte, rest)),
        [b'%', high, low, rest @ ..] => {
            let byte = escaped(*high, *low)?;
            Some((byte, rest))
        }
        _ => None,
    }
}

/// The name whose stem this is. It takes no memory.
pub fn name_of(stem: &[u8]) -> Option<DbName>
    ensures { result ≡ spec.name_of stem.entry.now }
{
    let mut bytes: ArrayVec<u8, 31> = ArrayVec::new();
    let mut rest = stem;
    while !rest.is_empty() {
        let (byte, more) = first_byte(rest)?;
        if bytes.try_push(byte).is_err() {
            return None;
        }
        rest = more;
    }
    valid_name(bytes.as_slice())
}

// Bytes that are a name.
fn valid_name(bytes: &[u8]) -> Option<DbName>
    ensures { result ≡ spec.as_name bytes.now }
{
    match DbName::new(bytes) {
        Ok(name) => Some(name),
        Err(_) => None,
    }
}
