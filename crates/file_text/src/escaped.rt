// The bytes of an entry as text.
ghost use Rattle.std.specs.Prelude.{◌≡◌, ◌<◌, ◌++◌, OnOk, string_bytes};
ghost use Rattle.file_text.specs.Escapes.{escaped, escaped_byte, hex_escape, is_printable as is_printable_byte, lower_digit, other_byte};

use std::alloc::AllocError;

/// Appends bytes as printable ASCII: a backslash as two, a line feed, a carriage return, a tabulator and a zero as `\n`, `\r`,
/// `\t` and `\0`, and any other byte that isn't printable as `\x` and its two lower-case hexadecimal digits.
pub fn push_escaped(text: &mut String, bytes: &[u8]) -> Result<(), AllocError>
    ensures { OnOk result (string_bytes text.new ≡ string_bytes text.old ++ escaped bytes.now) }
{
    let mut rest = bytes;
    while let Some((byte, more)) = rest.split_first() {
        push_byte(text, *byte)?;
        rest = more;
    }
    Ok(())
}

// Appends what stands for a byte.
fn push_byte(text: &mut String, byte: u8) -> Result<(), AllocError>
    ensures { OnOk result (string_bytes text.new ≡ string_bytes text.old ++ escaped_byte byte) }
{
    match byte {
        b'\\' => text.push_str("\\\\"),
        b'\n' => text.push_str("\\n"),
        b'\r' => text.push_str("\\r"),
        b'\t' => text.push_str("\\t"),
        0 => text.push_str("\\0"),
        _ => push_other(text, byte),
    }
}

// Appends a byte without a letter of its own.
fn push_other(text: &mut String, byte: u8) -> Result<(), AllocError>
    ensures { OnOk result (string_bytes text.new ≡ string_bytes text.old ++ other_byte byte) }
{
    if is_printable(byte) {
        text.push(char::from(byte))
    } else {
        push_hex_escape(text, byte)
    }
}

// Appends `\x` and the two digits of a byte.
fn push_hex_escape(text: &mut String, byte: u8) -> Result<(), AllocError>
    ensures { OnOk result (string_bytes text.new ≡ string_bytes text.old ++ hex_escape byte) }
{
    text.push_str("\\x")?;
    text.push(char::from(digit_of(byte / 16)))?;
    text.push(char::from(digit_of(byte % 16)))?;
    Ok(())
}

// From the space to `~`.
fn is_printable(byte: u8) -> bool
    ensures { result ≡ is_printable_byte byte }
{
    32 <= byte && byte <= 126
}

// The lower-case hexadecimal digit of a number.
fn digit_of(number: u8) -> u8
    requires { number < 16 }
    ensures digit { result ≡ lower_digit number }
    ensures ascii { result < 128 }
{
    if number < 10 {
        b'0' + number
    } else {
        b'a' + (number - 10)
    }
}
