// The phones of a card.
ghost use Rattle.std.specs.Prelude.{◌≡◌, ◌<◌, ◌+◌, ◌++◌, OnOk, map, true};
ghost use Rattle.content_lines.specs.Properties.{is_name};
ghost use Rattle.palm_records.specs.Addresses.{address_value};
ghost use Rattle.card_export.specs.Exports.{field_text, phone_at, phones_before};
ghost use Rattle.card_export.specs.Properties as properties;
ghost use Rattle.card_export.specs.Properties.{phone_property};

use crate::field::{PHONES, field};
use content_lines::Properties;
use palm_records::Address;
use std::alloc::{AllocError, Global};

/// The text of a phone, by its place from 0.
pub fn phone_text<'a>(address: &Address<'a>, place: usize) -> &'a [u8]
    requires { place < 5 }
    ensures { result.now ≡ field_text (address_value address.now) (3 + place) }
{
    field(address, PHONES + place)
}

/// Appends the phones that are there.
pub fn push_phones(
    alloc: Global,
    card: &mut Properties,
    address: &Address<'_>,
) -> Result<(), AllocError>
    ensures { OnOk result (card.new
        ≡ card.old ++ map phone_property (phones_before 5 (address_value address.now))) }
{
    push_phone(alloc, card, address, 0)?;
    push_phone(alloc, card, address, 1)?;
    push_phone(alloc, card, address, 2)?;
    push_phone(alloc, card, address, 3)?;
    push_phone(alloc, card, address, 4)?;
    Ok(())
}

// Appends a phone, where it is there.
fn push_phone(
    alloc: Global,
    card: &mut Properties,
    address: &Address<'_>,
    place: usize,
) -> Result<(), AllocError>
    requires { place < 5 }
    ensures { OnOk result (card.new ≡ card.old ++ phone_at (address_value address.now) place) }
{
    let number = phone_text(address, place);
    if number.is_empty() {
        return Ok(());
    }
    let shown = place == usize::from(address.shown);
    let mut name = String::from_str(alloc, kind_words(address.kinds[place]))?;
    name.push_str(preference(shown))?;
    card.push_text(alloc, name.as_str(), number)?;
    Ok(())
}

// The property and the types of a kind of phone.
fn kind_words(kind: u8) -> &'static str
    ensures words { result.now ≡ properties.kind_words kind }
    ensures proper { is_name result.now ≡ true }
{
    match kind {
        0 => "TEL;TYPE=WORK,VOICE",
        1 => "TEL;TYPE=HOME,VOICE",
        2 => "TEL;TYPE=FAX",
        3 => "TEL;TYPE=VOICE",
        4 => "EMAIL;TYPE=INTERNET",
        5 => "TEL;TYPE=MAIN",
        6 => "TEL;TYPE=PAGER",
        _ => "TEL;TYPE=CELL",
    }
}

// The type of the phone that a list shows.
fn preference(shown: bool) -> &'static str
    ensures preference { result.now ≡ properties.preference shown }
    ensures proper { is_name result.now ≡ true }
{
    if shown { ",PREF" } else { "" }
}
