// What a card says of a person.
ghost use Rattle.std.specs.Prelude.{◌≡◌, ◌++◌, OnOk};
ghost use Rattle.palm_records.specs.Addresses.{address_value};
ghost use Rattle.card_export.specs.Exports.{person_of};
ghost use Rattle.card_export.specs.Properties.{person_properties};

use crate::custom::push_customs;
use crate::field::{COMPANY, NOTE, TITLE, field};
use crate::name::push_names;
use crate::phone::push_phones;
use crate::place::push_place;
use content_lines::Properties;
use palm_records::Address;
use std::alloc::{AllocError, Global};

/// Appends the properties of an address.
pub fn push_person(
    alloc: Global,
    card: &mut Properties,
    block: &[u8],
    address: &Address<'_>,
) -> Result<(), AllocError>
    ensures { OnOk result (card.new
        ≡ card.old ++ person_properties (person_of block.now (address_value address.now))) }
{
    push_names(alloc, card, address)?;
    card.push_given(alloc, "ORG", field(address, COMPANY))?;
    card.push_given(alloc, "TITLE", field(address, TITLE))?;
    push_phones(alloc, card, address)?;
    push_place(alloc, card, address)?;
    push_customs(alloc, card, block, address)?;
    card.push_given(alloc, "NOTE", field(address, NOTE))?;
    Ok(())
}
