// The custom fields of a card.
ghost use Rattle.std.specs.Prelude.{◌≡◌, ◌<◌, ◌++◌, OnOk, true};
ghost use Rattle.std.specs.List.{flat_map};
ghost use Rattle.content_lines.specs.Properties.{is_name};
ghost use Rattle.palm_records.specs.Addresses.{address_value};
ghost use Rattle.card_export.specs.Exports.{custom_at, customs_before};
ghost use Rattle.card_export.specs.Properties as properties;
ghost use Rattle.card_export.specs.Properties.{custom_properties};

use crate::field::{CUSTOMS, field};
use crate::label::custom_label;
use content_lines::Properties;
use palm_records::Address;
use std::alloc::{AllocError, Global};

/// Appends the custom fields that are there.
pub fn push_customs(
    alloc: Global,
    card: &mut Properties,
    block: &[u8],
    address: &Address<'_>,
) -> Result<(), AllocError>
    ensures { OnOk result (card.new ≡ card.old
        ++ flat_map custom_properties (customs_before 4 block.now (address_value address.now))) }
{
    push_custom(alloc, card, block, address, 0)?;
    push_custom(alloc, card, block, address, 1)?;
    push_custom(alloc, card, block, address, 2)?;
    push_custom(alloc, card, block, address, 3)?;
    Ok(())
}

// Appends a custom field and its label, where it is there.
fn push_custom(
    alloc: Global,
    card: &mut Properties,
    block: &[u8],
    address: &Address<'_>,
    number: usize,
) -> Result<(), AllocError>
    requires { number < 4 }
    ensures { OnOk result (card.new
        ≡ card.old ++ custom_at block.now (address_value address.now) number) }
{
    let custom = field(address, CUSTOMS + number);
    if custom.is_empty() {
        return Ok(());
    }
    card.push_text(alloc, custom_name(number), custom)?;
    card.push_given(alloc, label_name(number), custom_label(block, number))?;
    Ok(())
}

// The name of a custom field.
fn custom_name(number: usize) -> &'static str
    requires { number < 4 }
    ensures name { result.now ≡ properties.custom_name number }
    ensures proper { is_name result.now ≡ true }
{
    match number {
        0 => "custom1.X-PALM-CUSTOM1",
        1 => "custom2.X-PALM-CUSTOM2",
        2 => "custom3.X-PALM-CUSTOM3",
        _ => "custom4.X-PALM-CUSTOM4",
    }
}

// The name of its label.
fn label_name(number: usize) -> &'static str
    requires { number < 4 }
    ensures name { result.now ≡ properties.label_name number }
    ensures proper { is_name result.now ≡ true }
{
    match number {
        0 => "custom1.X-ABLABEL",
        1 => "custom2.X-ABLABEL",
        2 => "custom3.X-ABLABEL",
        _ => "custom4.X-ABLABEL",
    }
}
