// The characters of a value.
ghost use Rattle.std.specs.Prelude.{◌≡◌, ◌++◌, OnOk, encode_utf8_all, string_bytes};
ghost use Rattle.content_lines.specs.Lines.{escaped_char};

use std::alloc::AllocError;

/// Appends a character of a value with its escape: a backslash before a backslash, a comma and a semicolon, and a
/// backslash and `n` for a line feed.
pub fn push_escaped(text: &mut String, ch: char) -> Result<(), AllocError>
    ensures { OnOk result (string_bytes text.new
        ≡ string_bytes text.old ++ encode_utf8_all (escaped_char ch)) }
{
    if ch == '\n' {
        text.push_str("\\n")?;
        return Ok(());
    }
    if ch == '\\' || ch == ',' || ch == ';' {
        text.push_str("\\")?;
    }
    text.push(ch)?;
    Ok(())
}
