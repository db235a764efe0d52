// Names of files in printed lines.
ghost use Rattle.std.specs.Prelude.{◌≡◌, ◌<◌, ◌++◌, OnOk, string_bytes};
ghost use Rattle.pdb_values.specs.Stems.{hex_digit};
ghost use Rattle.run_words.specs.StemNames.{digit_number as number_of_digit};
ghost use Rattle.cmd_status.specs.PrintedNames.{begins_escape as is_escape_begun, escape_of, is_escaped as may_be_escaped, is_printable as is_printable_byte, printed_byte, printed_name, stands_alone as stands_for_itself};

use std::alloc::AllocError;

/// Appends the name of a file as a line has it. A byte that is no printable ASCII is `%` and two upper-case hexadecimal digits,
/// and so is a `%` that could be taken for the first byte of these.
pub fn push_name(line: &mut String, name: &str) -> Result<(), AllocError>
    ensures { OnOk result (string_bytes line.new
        ≡ string_bytes line.old ++ printed_name name.now) }
{
    let mut rest = name.as_bytes();
    while let Some((byte, more)) = rest.split_first() {
        push_byte(line, *byte, more)?;
        rest = more;
    }
    Ok(())
}

// Appends what stands for a byte in front of these.
fn push_byte(line: &mut String, byte: u8, rest: &[u8]) -> Result<(), AllocError>
    ensures { OnOk result (string_bytes line.new
        ≡ string_bytes line.old ++ printed_byte byte rest.now) }
{
    if stands_alone(byte, rest) {
        line.push(char::from(byte))
    } else {
        push_escape(line, byte)
    }
}

// Appends `%` and the two digits of a byte.
fn push_escape(line: &mut String, byte: u8) -> Result<(), AllocError>
    ensures { OnOk result (string_bytes line.new ≡ string_bytes line.old ++ escape_of byte) }
{
    line.push('%')?;
    line.push(char::from(digit_of(byte / 16)))?;
    line.push(char::from(digit_of(byte % 16)))?;
    Ok(())
}

// Whether a byte stands for itself in front of these.
fn stands_alone(byte: u8, rest: &[u8]) -> bool
    ensures { result ≡ stands_for_itself byte rest.now }
{
    is_printable(byte) && !(byte == b'%' && begins_escape(rest))
}

// Whether these begin with the two digits of an escape.
fn begins_escape(rest: &[u8]) -> bool
    ensures { result ≡ is_escape_begun rest.now }
{
    match rest {
        [high, low, ..] => {
            let (high, low) = (digit_number(*high), digit_number(*low));
            high < 16 && low < 16 && is_escaped(high * 16 + low)
        }
        _ => false,
    }
}

// From the space to `~`.
fn is_printable(byte: u8) -> bool
    ensures { result ≡ is_printable_byte byte }
{
    32 <= byte && byte <= 126
}

// One that isn't printable, or `%`.
fn is_escaped(byte: u8) -> bool
    ensures { result ≡ may_be_escaped byte }
{
    !is_printable(byte) || byte == b'%'
}

// The number of a digit of upper-case hexadecimal, and 16 for any other byte.
fn digit_number(byte: u8) -> u8
    ensures { result ≡ number_of_digit byte }
{
    match byte {
        b'0'..=b'9' => byte - b'0',
        b'A'..=b'F' => byte - b'A' + 10,
        _ => 16,
    }
}

// The upper-case hexadecimal digit of a number.
fn digit_of(number: u8) -> u8
    requires { number < 16 }
    ensures digit { result ≡ hex_digit number }
    ensures ascii { result < 128 }
{
    if number < 10 {
        b'0' + number
    } else {
        b'A' + (number - 10)
    }
}
