// Bytes of a Palm as characters.
ghost use Rattle.std.specs.Prelude.{◌≡◌, ◌<◌, ◌++◌, OnOk, encode_utf8_all, string_bytes};
ghost use Rattle.palm_records.specs.Characters.{char_of, characters, control_char};

use std::alloc::AllocError;

// The characters of 0x80 to 0x9F.
const SPECIALS: [char; 32] = [
    '\u{20AC}', '\u{F081}', '\u{201A}', '\u{192}', '\u{201E}', '\u{2026}', '\u{2020}', '\u{2021}',
    '\u{2C6}', '\u{2030}', '\u{160}', '\u{2039}', '\u{152}', '\u{2666}', '\u{2663}', '\u{2665}',
    '\u{2660}', '\u{2018}', '\u{2019}', '\u{201C}', '\u{201D}', '\u{2022}', '\u{2013}', '\u{2014}',
    '\u{2DC}', '\u{2122}', '\u{161}', '\u{F09B}', '\u{153}', '\u{F09D}', '\u{F09E}', '\u{178}',
];

/// The character that a byte stands for.
#[tactic(auto, using(std::proofs::lemmas::Bool::Decides::nat_tests), unfolding(crate::specs::Characters::char_of))]
pub fn char_of(byte: u8) -> char
    ensures { result ≡ char_of byte }
{
    if byte < 0x20 {
        control_char(byte)
    } else if byte == 0x7F {
        '\u{2421}'
    } else if byte < 0x80 || byte >= 0xA0 {
        char::from(byte)
    } else {
        SPECIALS[usize::from(byte - 0x80)]
    }
}

// The character of a control byte.
fn control_char(byte: u8) -> char
    requires { byte < 32 }
    ensures { result ≡ control_char byte }
{
    if byte == b'\t' || byte == b'\n' {
        char::from(byte)
    } else {
        char::from_u32(0x2400 + u32::from(byte)).unwrap()
    }
}

/// Appends the characters that bytes stand for.
pub fn push_text(text: &mut String, bytes: &[u8]) -> Result<(), AllocError>
    ensures { OnOk result (string_bytes text.new
        ≡ string_bytes text.old ++ encode_utf8_all (characters bytes.now)) }
{
    for byte in bytes {
        text.push(char_of(*byte))?;
    }
    Ok(())
}
