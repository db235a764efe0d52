// The words that are written behind keys.
ghost use Rattle.std.specs.Prelude.{◌≡◌, ◌<◌, ◌^◌, IfOk, string_bytes};
ghost use Rattle.hex.specs.Hex.{IsBytes};
ghost use Rattle.folder_files.specs.Hexadecimal.{bytes_text};
ghost use Rattle.folder_files.specs.InfoFiles.{IsUserSaid, said_of};
ghost use Rattle.folder_files.specs.Lines.{Date, Name as UserText, Number, Password as SecretText, Says, SaysStem, Slot, Stem, text_of};

use pdb_values::{DbName, Marks, PalmDate, Password, UserName};
use std::alloc::{AllocError, Global};

// A number in eight digits.
pub(crate) fn number_word(alloc: Global, number: u32) -> Result<String, AllocError>
    ensures word { IfOk result (λ word. string_bytes word ≡ text_of Number number) }
    ensures says { Says Number number (text_of Number number) }
{
    hex::encode(alloc, number.to_be_bytes())
}

// A date in sixteen digits.
pub(crate) fn date_word(alloc: Global, date: PalmDate) -> Result<String, AllocError>
    ensures word { IfOk result (λ word. string_bytes word ≡ text_of Date date) }
    ensures says { Says Date date (text_of Date date) }
{
    hex::encode(alloc, date.to_wire())
}

// The name of a user in two digits for each byte, or `-`.
pub(crate) fn name_word(alloc: Global, name: &UserName) -> Result<String, AllocError>
    ensures word { IfOk result (λ word. string_bytes word ≡ text_of UserText name.now) }
    ensures says { Says UserText name.now (text_of UserText name.now) }
{
    bytes_word(alloc, name.as_bytes())
}

// A password in the same way.
pub(crate) fn password_word(alloc: Global, password: &Password) -> Result<String, AllocError>
    ensures word { IfOk result (λ word. string_bytes word ≡ text_of SecretText password.now) }
    ensures says { Says SecretText password.now (text_of SecretText password.now) }
{
    bytes_word(alloc, password.as_bytes())
}

// What a desktop knows of the user of a slot.
pub(crate) fn slot_word(alloc: Global, marks: &Marks) -> Result<String, AllocError>
    ensures word { IfOk result (λ word. string_bytes word ≡ text_of Slot (said_of marks.now)) }
    ensures says { IfOk result (λ _. IsUserSaid marks.now) }
{
    let user = number_word(alloc, marks.user)?;
    let last = date_word(alloc, marks.last)?;
    let name = name_word(alloc, &marks.name)?;
    format!(in alloc; "user {user} last {last} name {name}")
}

// Each byte is one.
fn see_bytes(bytes: &[u8])
    ensures { IsBytes bytes.now }
{}

// The name of a database as its stem.
pub(crate) fn stem_word(alloc: Global, name: &DbName) -> Result<String, AllocError>
    ensures word { IfOk result (λ word. string_bytes word ≡ text_of Stem name.now) }
    ensures says { SaysStem name.now (text_of Stem name.now) }
{
    see_bytes(name.as_bytes());
    name.file_stem(alloc)
}

// Bytes in two digits each, or `-` for none.
fn bytes_word(alloc: Global, bytes: &[u8]) -> Result<String, AllocError>
    ensures word { IfOk result (λ word. string_bytes word ≡ bytes_text bytes.now) }
    ensures in_range { IsBytes bytes.now }
{
    match bytes {
        [] => String::from_str(alloc, "-"),
        [_, ..] => hex::encode(alloc, bytes),
    }
}
