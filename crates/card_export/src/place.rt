// The postal address of a card.
ghost use Rattle.std.specs.Prelude.{◌≡◌, ◌++◌, IfOk, OnOk, codes};
ghost use Rattle.content_lines.specs.Properties.{parts_value, text_value};
ghost use Rattle.palm_records.specs.Addresses.{address_value};
ghost use Rattle.card_export.specs.Exports.{place_of};
ghost use Rattle.card_export.specs.Properties.{is_nowhere, place_parts, place_properties};

use crate::field::{CITY, COUNTRY, STATE, STREET, ZIP, field};
use content_lines::{Properties, Text};
use palm_records::Address;
use std::alloc::{AllocError, Global};

/// Appends the postal address, where a part of it is there.
pub fn push_place(
    alloc: Global,
    card: &mut Properties,
    address: &Address<'_>,
) -> Result<(), AllocError>
    ensures { OnOk result (card.new ≡ card.old ++ place_properties (place_of (address_value address.now))) }
{
    if is_nowhere(address) {
        return Ok(());
    }
    let place = place_value(alloc, address)?;
    card.push(alloc, "ADR", place)?;
    Ok(())
}

// Whether no part of the postal address is there.
fn is_nowhere(address: &Address<'_>) -> bool
    ensures { result ≡ is_nowhere (place_of (address_value address.now)) }
{
    field(address, STREET).is_empty()
        && field(address, CITY).is_empty()
        && field(address, STATE).is_empty()
        && field(address, ZIP).is_empty()
        && field(address, COUNTRY).is_empty()
}

// Its parts, with semicolons between them.
fn place_value(alloc: Global, address: &Address<'_>) -> Result<Text, AllocError>
    ensures { IfOk result (λ value. value
        ≡ parts_value (place_parts (place_of (address_value address.now)))) }
{
    let mut value = Text::new(alloc, ";;")?;
    push_part(&mut value, field(address, STREET))?;
    push_part(&mut value, field(address, CITY))?;
    push_part(&mut value, field(address, STATE))?;
    push_part(&mut value, field(address, ZIP))?;
    value.push_text(field(address, COUNTRY))?;
    Ok(value)
}

// Appends a part and the semicolon behind it.
fn push_part(value: &mut Text, part: &[u8]) -> Result<(), AllocError>
    ensures { OnOk result (value.new ≡ value.old ++ (text_value part.now ++ codes ";")) }
{
    value.push_text(part)?;
    value.push_plain(";")?;
    Ok(())
}
