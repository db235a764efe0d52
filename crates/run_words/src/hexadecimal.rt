// Hexadecimal: two digits of either case for each byte, spaces between bytes, and `0x` in front of all or not.
ghost use Rattle.std.specs.Prelude.{◌≡◌, ◌<◌, ◌≤◌, ◌+◌, IfOk, IfSome, length, option_map};
ghost use Rattle.run_words.specs.HexPairs.{first_pair as first_pair_of};
ghost use Rattle.run_words.specs.Words.{byte_count as count_of_bytes, digits_of, is_digit as is_hex_digit, is_hex as is_hex_word, without_prefix as word_without_prefix};

use std::alloc::{AllocError, Global};

/// Whether a word is the hexadecimal of 1 to 4,096 bytes.
pub fn is_hex(word: &[u8]) -> bool
    ensures { result ≡ is_hex_word word.now }
{
    match byte_count(without_prefix(word)) {
        Some(count) => 1 <= count && count <= 4096,
        None => false,
    }
}

/// The digits of hexadecimal, without `0x` in front and without spaces.
pub fn hex_digits(alloc: Global, word: &str) -> Result<Vec<u8>, AllocError>
    ensures { IfOk result (λ digits. digits.items ≡ digits_of word.now) }
{
    let mut digits = Vec::new(alloc);
    for byte in without_prefix(word.as_bytes()) {
        if *byte != b' ' {
            digits.push(*byte)?;
        }
    }
    Ok(digits)
}

// A word without `0x` in front.
fn without_prefix(word: &[u8]) -> &[u8]
    ensures { result.now ≡ word_without_prefix word.now }
{
    if word.starts_with(b"0x") {
        &word[2..]
    } else {
        word
    }
}

// How many bytes hexadecimal stands for, where it is any.
fn byte_count(text: &[u8]) -> Option<usize>
    ensures { result ≡ count_of_bytes text.now }
{
    let mut rest = text;
    let mut count = 0;
    while !rest.is_empty() {
        let (bytes, more) = first_pair(rest)?;
        count += bytes;
        rest = more;
    }
    Some(count)
}

// How many bytes the beginning of hexadecimal stands for, none where it is a space, and the rest.
fn first_pair(text: &[u8]) -> Option<(usize, &[u8])>
    ensures value { option_map (λ first. (first.0, first.1.now)) result ≡ first_pair_of text.entry.now }
    ensures shorter { IfSome result (λ first. length first.1.now < length text.entry.now) }
    ensures few { IfSome result (λ first.
        first.0 + length first.1.now ≤ length text.entry.now) }
{
    match text {
        [b' ', rest @ ..] => Some((0, rest)),
        [high, low, rest @ ..] if is_digit(*high) && is_digit(*low) => Some((1, rest)),
        _ => None,
    }
}

fn is_digit(byte: u8) -> bool
    ensures { result ≡ is_hex_digit byte }
{
    (b'0' <= byte && byte <= b'9')
        || (b'A' <= byte && byte <= b'F')
        || (b'a' <= byte && byte <= b'f')
}
