// Bytes of characters.
ghost use Rattle.std.specs.Prelude.{◌≡◌, ◌≢◌, ◌+◌, IfOk, IsUtf8, MatchResult, None, Some, chars, length};
ghost use Rattle.memo_texts.specs.Characters.{byte_below, byte_of, bytes_of, line_bytes};
ghost use Rattle.memo_texts.specs.Faults.{IsUnread};
ghost use Rattle.memo_texts.specs.Flaws.{character_flaw, flaw_at, flaw_from};

use crate::fault::{Flaw, LineFault, LineFlaw};
use palm_records::char_of;
use std::alloc::Global;
use std::str;

// The first byte that doesn't stand for a character of its own number.
const LATIN: u8 = 0xA0;

/// The bytes of a line in UTF-8.
pub fn line_bytes(alloc: Global, line: &[u8]) -> Result<Vec<u8>, LineFault>
    ensures { MatchResult result (λ bytes. line_bytes line.now ≡ Some bytes.items)
        (λ fault. IsUnread fault (line_bytes line.now) (character_flaw line.now)) }
{
    match str::from_utf8(line) {
        Ok(text) => text_bytes(alloc, text),
        Err(end) => Err(fault_behind(alloc, &line[..end.valid_up_to()])),
    }
}

// The fault of a line of which these bytes are UTF-8, and no more.
fn fault_behind(alloc: Global, front: &[u8]) -> LineFault
    requires { IsUtf8 front.now }
    ensures { result ≢ LineFault.NoMemory
        → result ≡ LineFault.BadForm (flaw_from 1 (chars front.now)) }
{
    let Ok(text) = str::from_utf8(front) else {
        unreachable!()
    };
    match text_bytes(alloc, text) {
        Ok(bytes) => LineFault::BadForm(LineFlaw {
            column: bytes.len() + 1,
            flaw: Flaw::NotUtf8,
        }),
        Err(fault) => fault,
    }
}

// The bytes of the characters of a text.
fn text_bytes(alloc: Global, text: &str) -> Result<Vec<u8>, LineFault>
    ensures bytes { MatchResult result (λ bytes. bytes_of (chars text.now) ≡ Some bytes.items)
        (λ fault. IsUnread fault (bytes_of (chars text.now)) (flaw_from 1 (chars text.now))) }
    ensures end { IfOk result (λ bytes. flaw_from 1 (chars text.now)
        ≡ flaw_at (length bytes.items + 1) Flaw.NotUtf8) }
{
    let mut bytes = Vec::new(alloc);
    for ch in text.chars() {
        match byte_of(ch) {
            Some(byte) => bytes.push(byte)?,
            None => {
                return Err(LineFault::BadForm(LineFlaw {
                    column: bytes.len() + 1,
                    flaw: Flaw::NoByte(ch),
                }));
            }
        }
    }
    Ok(bytes)
}

/// The byte of a character, where it has one.
#[tactic(auto, unfolding(crate::specs::Characters::byte_of))]
pub fn byte_of(ch: char) -> Option<u8>
    ensures { result ≡ byte_of ch }
{
    match ch {
        '\u{2400}' => None,
        '\u{240A}' => Some(b'\n'),
        _ => byte_below(ch),
    }
}

// The byte that stands for a character.
fn byte_below(ch: char) -> Option<u8>
    ensures { result ≡ byte_below 256 ch }
{
    let code = u32::from(ch);
    if code < 0x100 && char_of(code as u8) == ch {
        return Some(code as u8);
    }
    for byte in 0..LATIN {
        if char_of(byte) == ch {
            return Some(byte);
        }
    }
    None
}
