// Strings of bytes, each behind its length.
ghost use Rattle.std.specs.Prelude.{◌≡◌, ◌++◌, ℕ, List, None, OnOk, IfSome};
ghost use Rattle.device_state.specs.Strings.{string_text};

use byteorder::{BigEndian, ByteOrder};
use std::alloc::AllocError;

// The bytes of a length.
const LENGTH_SIZE: usize = 8;

/// A string and the bytes behind it.
#[derive(Clone, Copy)]
pub struct Front<'a> {
    pub string: &'a [u8],
    pub rest: &'a [u8],
}

/// The string that the bytes begin with. None where they begin with no whole one.
pub fn next_string(bytes: &[u8]) -> Option<Front<'_>>
    ensures found { IfSome result (λ front.
        bytes.now ≡ string_text front.string.now ++ front.rest.now) }
    ensures none { result ≡ None → (string rest : List ℕ) →
        ¬ (bytes.now ≡ string_text string ++ rest) }
{
    if bytes.len() < LENGTH_SIZE {
        return None;
    }
    let length = BigEndian::read_u64(bytes);
    let rest = &bytes[LENGTH_SIZE..];
    if (rest.len() as u64) < length {
        return None;
    }
    let (string, rest) = rest.split_at(length as usize);
    Some(Front { string, rest })
}

/// Appends a string. After a refusal of memory some of it may stand there.
pub fn push_string(out: &mut Vec<u8>, string: &[u8]) -> Result<(), AllocError>
    ensures ok { OnOk result (out.new.items ≡ out.old.items ++ string_text string.now) }
{
    out.extend_from_slice(&(string.len() as u64).to_be_bytes())?;
    out.extend_from_slice(string)
}
