// The characters of a value.
ghost use Rattle.std.specs.Prelude.{◌≡◌, ◌<◌, ◌++◌, ◌∷◌, [], IfOk, OnOk, chars, string_bytes, true};
ghost use Rattle.hex.specs.Hex.{encode_lower};
ghost use Rattle.content_lines.specs.Properties.{digit, is_plain, text_value};
ghost use Rattle.content_lines.specs.Records.{id_digits, id_limit};

use crate::value::push_escaped;
use palm_records::char_of;
use pdb_values::RecordId;
use std::alloc::{AllocError, Global};
use std::marker::Model;

/// The characters of a value, to which more may come.
#[derive(Drop)]
pub struct Text {
    text: String,
}

impl Model for Text {
    ghost use Rattle.std.specs.Prelude.{ℕ, List, chars, string_bytes};

    ghost Value = { List ℕ };

    ghost view = { λ text. chars (string_bytes text.text) };
}

impl Text {
    /// These characters.
    pub fn new(alloc: Global, text: &str) -> Result<Text, AllocError>
        requires { is_plain text.now ≡ true }
        ensures { IfOk result (λ value. value ≡ text.now) }
    {
        Ok(Text {
            text: String::from_str(alloc, text)?,
        })
    }

    /// The characters in UTF-8.
    pub fn as_str(&self) -> &str
        ensures { chars result.now ≡ self.now }
    {
        self.text.as_str()
    }

    /// Appends characters.
    pub fn push_plain(&mut self, text: &str) -> Result<(), AllocError>
        requires { is_plain text.now ≡ true }
        ensures { OnOk result (self.new ≡ self.old ++ text.now) }
    {
        self.text.push_str(text)?;
        Ok(())
    }

    /// Appends the last digit of a number.
    pub fn push_digit(&mut self, number: u16) -> Result<(), AllocError>
        ensures { OnOk result (self.new ≡ self.old ++ digit number ∷ []) }
    {
        self.text.push(char::from(b'0' + (number % 10) as u8))?;
        Ok(())
    }

    /// Appends a text of a Palm, with its escapes.
    pub fn push_text(&mut self, text: &[u8]) -> Result<(), AllocError>
        ensures { OnOk result (self.new ≡ self.old ++ text_value text.now) }
    {
        push_value(&mut self.text, text)?;
        Ok(())
    }

    /// Appends bytes in hexadecimal.
    pub fn push_hex(&mut self, alloc: Global, bytes: &[u8]) -> Result<(), AllocError>
        ensures { OnOk result (self.new ≡ self.old ++ encode_lower bytes.now) }
    {
        let digits = hex::encode(alloc, bytes)?;
        self.push_plain(digits.as_str())?;
        Ok(())
    }

    /// Appends the digits of an id.
    pub fn push_id(&mut self, alloc: Global, id: RecordId) -> Result<(), AllocError>
        ensures digits { OnOk result (self.new ≡ self.old ++ id_digits id) }
        ensures id { OnOk result (id < id_limit) }
    {
        self.push_hex(alloc, &id.number().to_be_bytes()[1..])?;
        Ok(())
    }
}

// Appends a text of a Palm, with its escapes.
fn push_value(line: &mut String, text: &[u8]) -> Result<(), AllocError>
    ensures { OnOk result (chars (string_bytes line.new)
        ≡ chars (string_bytes line.old) ++ text_value text.now) }
{
    for byte in text {
        push_escaped(line, char_of(*byte))?;
    }
    Ok(())
}
