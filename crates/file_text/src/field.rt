// Words of a line, each with the value behind it.
ghost use Rattle.std.specs.Prelude.{◌≡◌, ◌++◌, OnOk, string_bytes};
ghost use Rattle.file_text.specs.Fields.{hex_text, number_text};

use std::alloc::{AllocError, Global};
use std::fmt::Write;

/// Appends a word and a number in decimal.
pub fn push_number(text: &mut String, word: &str, number: u64) -> Result<(), AllocError>
    ensures { OnOk result (
        string_bytes text.new ≡ string_bytes text.old ++ number_text word.now number) }
{
    text.push_str(word)?;
    write!(text, "{number}")?;
    Ok(())
}

/// Appends a word and bytes in hexadecimal, two digits a byte.
pub fn push_hex(
    alloc: Global,
    text: &mut String,
    word: &str,
    bytes: &[u8],
) -> Result<(), AllocError>
    ensures { OnOk result (
        string_bytes text.new ≡ string_bytes text.old ++ hex_text word.now bytes.now) }
{
    let digits = hex::encode(alloc, bytes)?;
    text.push_str(word)?;
    text.push_str(digits.as_str())?;
    Ok(())
}
