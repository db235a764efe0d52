// Names of databases as names of files.
ghost use Rattle.std.specs.Prelude.{◌≡◌, ◌<◌, ◌++◌, OnOk, string_bytes};
ghost use Rattle.pdb_values.specs.Stems.{hex_digit, is_plain, stem_byte};

use std::alloc::AllocError;

// The upper-case hexadecimal digit of a number.
fn hexadecimal(number: u8) -> u8
    requires { number < 16 }
    ensures digit { result ≡ hex_digit number }
    ensures ascii { result < 128 }
{
    if number < 10 {
        b'0' + number
    } else {
        b'A' + (number - 10)
    }
}

// Whether a byte stands for itself.
fn stands_for_itself(byte: u8) -> bool
    ensures { result ≡ is_plain byte }
{
    byte.is_ascii_alphanumeric() || byte == b'_' || byte == b'-'
}

// Appends what stands for a byte.
pub fn push_byte(stem: &mut String, byte: u8) -> Result<(), AllocError>
    ensures { OnOk result (string_bytes stem.new ≡ string_bytes stem.old ++ stem_byte byte) }
{
    if stands_for_itself(byte) {
        stem.push(char::from(byte))?;
    } else {
        stem.push('%')?;
        stem.push(char::from(hexadecimal(byte / 16)))?;
        stem.push(char::from(hexadecimal(byte % 16)))?;
    }
    Ok(())
}
