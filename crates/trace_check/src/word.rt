// The words of a line.
ghost use Rattle.std.specs.Prelude.{◌≡◌, ◌≤◌, length, bytes_eq, IfSome, IfNone, IfOk, List, ℕ, Bool, true, false, ◌++◌, codes};
ghost use Rattle.std.specs.List.{AllByRecursion};
ghost use Rattle.std.specs.Option.{option_map};
ghost use Rattle.std.specs.Fmt.{decimal};
ghost use Rattle.hex.specs.Hex.{encode_lower};
ghost use Rattle.trace_text.specs.declared.frame.End.{End};
ghost use Rattle.trace_text.specs.TraceLines.{end_word, mark_word};
ghost use Rattle.line_script.specs.Words.{bytes_in as bytes_by};
ghost use Rattle.trace_check.specs.Words.{IsMarked, is_feed, is_mark as marks};

use arrayvec::ArrayVec;
use hex::encode_to_slice;
use std::alloc::{AllocError, Global};
use trace_text::End;

// The most bytes that a frame has.
const MOST: usize = 1040;

// The line at the front, without its end, and what stands behind it.
pub(crate) fn split_line(bytes: &[u8]) -> Option<(&[u8], &[u8])>
    ensures some { IfSome result (λ parts. bytes.now ≡ parts.0.now ++ codes "\n" ++ parts.1.now) }
    ensures line { IfSome result (λ parts.
        AllByRecursion (λ byte. is_feed byte ≡ false) parts.0.now) }
    ensures none { IfNone result (AllByRecursion (λ byte. is_feed byte ≡ false) bytes.now) }
{
    let end = bytes.iter().position(|byte| *byte == b'\n')?;
    Some((&bytes[..end], &bytes[end + 1..]))
}

// What stands behind the number and a space.
pub(crate) fn behind_number<'a>(
    alloc: Global,
    number: u64,
    line: &'a [u8],
) -> Result<Option<&'a [u8]>, AllocError>
    ensures some { IfOk result (λ found. IfSome found (λ rest.
        line.now ≡ decimal number ++ codes " " ++ rest.now)) }
    ensures none { IfOk result (λ found. IfNone found ((rest : List ℕ) →
        ¬ (line.now ≡ decimal number ++ codes " " ++ rest))) }
{
    let head = format!(in alloc; "{number} ")?;
    Ok(line.strip_prefix(head.as_bytes()))
}

// Who sent the frame, and what stands behind that and a space.
pub(crate) fn split_end(words: &[u8]) -> Option<(End, &[u8])>
    ensures some { IfSome result (λ parts.
        words.now ≡ end_word parts.0 ++ codes " " ++ parts.1.now) }
    ensures none { IfNone result ((from : End) (rest : List ℕ) →
        ¬ (words.now ≡ end_word from ++ codes " " ++ rest)) }
{
    if let Some(rest) = words.strip_prefix(b"H ") {
        return Some((End::Handheld, rest));
    }
    let rest = words.strip_prefix(b"D ")?;
    Some((End::Desktop, rest))
}

fn is_mark(byte: u8) -> bool
    ensures { result ≡ marks byte }
{
    byte == b'+' || byte == b'-'
}

// What stands before the first mark, what it is, and what stands behind it.
fn part_at_mark(words: &[u8]) -> Option<(&[u8], bool, &[u8])>
    ensures some { IfSome result (λ parts.
        words.now ≡ parts.0.now ++ mark_word parts.1 ++ parts.2.now) }
    ensures front { IfSome result (λ parts.
        AllByRecursion (λ byte. marks byte ≡ false) parts.0.now) }
    ensures none { IfNone result (AllByRecursion (λ byte. marks byte ≡ false) words.now) }
{
    let place = words.iter().position(|byte| is_mark(*byte))?;
    Some((&words[..place], words[place] == b'+', &words[place + 1..]))
}

// The words before the mark, what it is, and the digits behind it.
pub(crate) fn split_mark(words: &[u8]) -> Option<(&[u8], bool, &[u8])>
    ensures some { IfSome result (λ parts. IsMarked parts.0.now parts.1 parts.2.now words.now) }
    ensures none { IfNone result ((front : List ℕ) (came : Bool) (back : List ℕ) →
        ¬ (IsMarked front came back words.now)) }
{
    let Some((before, came, behind)) = part_at_mark(words) else {
        return None;
    };
    let Some(front) = before.strip_suffix(b" ") else {
        return None;
    };
    let Some(back) = behind.strip_prefix(b" ") else {
        return None;
    };
    Some((front, came, back))
}

// Whether a text is these bytes in hexadecimal of lower case.
fn is_text_of(text: &[u8], bytes: &[u8]) -> bool
    requires { length bytes.now ≤ 1040 }
    ensures { result ≡ bytes_eq (encode_lower bytes.now) text.now }
{
    let mut digits = [0; 2 * MOST];
    let digits = &mut digits[..2 * bytes.len()];
    if encode_to_slice(bytes, digits).is_err() {
        return false;
    }
    &*digits == text
}

// The bytes that a word is, 1 to 1,040 of them.
pub(crate) fn bytes_in(word: &[u8]) -> Option<ArrayVec<u8, 1040>>
    ensures { option_map (λ bytes. bytes.items) result ≡ bytes_by 1040 word.now }
{
    if word.is_empty() || word.len() > 2 * MOST {
        return None;
    }
    let mut room = [0; MOST];
    let found = &mut room[..word.len() / 2];
    hex::decode_to_slice(word, found).ok()?;
    if !is_text_of(word, found) {
        return None;
    }
    let mut bytes = ArrayVec::new();
    bytes.try_extend_from_slice(found).ok()?;
    Some(bytes)
}
