// The names of a card.
ghost use Rattle.std.specs.Prelude.{◌≡◌, ◌∷◌, [], ◌++◌, IfOk, OnOk, codes};
ghost use Rattle.content_lines.specs.Properties.{parts_value};
ghost use Rattle.palm_records.specs.Addresses.{address_value};
ghost use Rattle.card_export.specs.Exports.{field_text, phones_before, shown_name_of};
ghost use Rattle.card_export.specs.Properties as properties;
ghost use Rattle.card_export.specs.Properties.{first_text, full_name, name_parts, name_properties, text_or};

use crate::field::{COMPANY, FIRST, LAST, field};
use crate::phone::phone_text;
use content_lines::{Properties, Text};
use palm_records::Address;
use std::alloc::{AllocError, Global};

/// Appends the name that is shown, and the names.
pub fn push_names(
    alloc: Global,
    card: &mut Properties,
    address: &Address<'_>,
) -> Result<(), AllocError>
    ensures { OnOk result (card.new ≡ card.old ++ name_properties (shown_name_of (address_value address.now))
        (field_text (address_value address.now) 0) (field_text (address_value address.now) 1)) }
{
    let shown = shown_name(alloc, address)?;
    card.push_text(alloc, "FN", shown.as_slice())?;
    let names = names_value(alloc, field(address, LAST), field(address, FIRST))?;
    card.push(alloc, "N", names)?;
    Ok(())
}

// The names, with semicolons between them.
fn names_value(alloc: Global, last: &[u8], first: &[u8]) -> Result<Text, AllocError>
    ensures { IfOk result (λ value. value ≡ parts_value (name_parts last.now first.now)) }
{
    let mut value = Text::new(alloc, "")?;
    value.push_text(last)?;
    value.push_plain(";")?;
    value.push_text(first)?;
    value.push_plain(";;;")?;
    Ok(value)
}

// The name that is shown.
fn shown_name(alloc: Global, address: &Address<'_>) -> Result<Vec<u8>, AllocError>
    ensures { IfOk result (λ name. name.items ≡ shown_name_of (address_value address.now)) }
{
    let first = field(address, FIRST);
    let last = field(address, LAST);
    let mut name = Vec::new(alloc);
    if first.is_empty() && last.is_empty() {
        name.extend_from_slice(other_name(address))?;
    } else {
        push_full_name(&mut name, first, last)?;
    }
    Ok(name)
}

// Appends the first and the last name, with a space between them where both are there.
fn push_full_name(name: &mut Vec<u8>, first: &[u8], last: &[u8]) -> Result<(), AllocError>
    ensures { OnOk result (name.new.items ≡ name.old.items ++ full_name first.now last.now) }
{
    if first.is_empty() {
        name.extend_from_slice(last)?;
        return Ok(());
    }
    name.extend_from_slice(first)?;
    if last.is_empty() {
        return Ok(());
    }
    name.push(b' ')?;
    name.extend_from_slice(last)?;
    Ok(())
}

// The name of an address that names no person: the company's, else the first phone.
fn other_name<'a>(address: &Address<'a>) -> &'a [u8]
    ensures { result.now ≡ first_text (field_text (address_value address.now) 2
        ∷ properties.first_phone (phones_before 5 (address_value address.now)) ∷ codes "(no name)" ∷ []) }
{
    let other: &[u8] = b"(no name)";
    let other = first_of(phone_text(address, 4), other);
    let other = first_of(phone_text(address, 3), other);
    let other = first_of(phone_text(address, 2), other);
    let other = first_of(phone_text(address, 1), other);
    let other = first_of(phone_text(address, 0), other);
    first_of(field(address, COMPANY), other)
}

// A text, or another one where it is empty.
fn first_of<'a>(text: &'a [u8], other: &'a [u8]) -> &'a [u8]
    ensures { result.now ≡ text_or text.now other.now }
{
    if text.is_empty() { other } else { text }
}
