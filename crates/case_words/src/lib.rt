//! Words of the lines that the test programs read: the word or the part at a place, and the bytes or the number that a text gives.
//!
//! A place without a word has the empty text. A text that gives no bytes gives none, and one that gives no number gives 0, so a
//! line that is out of its form prints something else than its `stdout` has.
#![tactic(auto)]

use std::alloc::Global;

/// The word at this place.
pub fn word<'w>(words: &[&'w str], place: usize) -> &'w str {
    match words.get(place) {
        Some(word) => *word,
        None => "",
    }
}

/// The part at this place of a text with colons between its parts.
pub fn part(text: &str, place: usize) -> &str {
    text.split(':').nth(place).unwrap_or("")
}

/// The bytes that a text gives in hexadecimal.
pub fn bytes_in(alloc: Global, text: &str) -> Vec<u8> {
    hex::decode(alloc, text).unwrap_or(Vec::new(alloc))
}

/// The bytes of the word at this place.
pub fn bytes_at(alloc: Global, words: &[&str], place: usize) -> Vec<u8> {
    bytes_in(alloc, word(words, place))
}

/// The number that a text gives.
pub fn number_in(text: &str) -> u32 {
    text.parse().unwrap_or(0)
}

/// The number of the word at this place.
pub fn number_at(words: &[&str], place: usize) -> u32 {
    number_in(word(words, place))
}

/// The number that a text gives, less a multiple of 65,536.
pub fn short_in(text: &str) -> u16 {
    (number_in(text) % 65_536) as u16
}
