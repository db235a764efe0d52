// One record of a database of addresses.
ghost use Rattle.std.specs.Prelude.{◌≡◌, ◌<◌, ◌++◌, OnOk, true};
ghost use Rattle.std.specs.Option.{option_copied};
ghost use Rattle.content_lines.specs.Properties.{IsBytes, is_plain};
ghost use Rattle.content_lines.specs.Records.{id_limit};
ghost use Rattle.palm_records.specs.Addresses.{address_in};
ghost use Rattle.card_export.specs.Cards.FormValue.{Unread};
ghost use Rattle.card_export.specs.Exports.{IsStored, card_of, form_of};
ghost use Rattle.card_export.specs.Properties.{card_properties, form_properties, head_properties};

use crate::person::push_person;
use content_lines::Properties;
use palm_records::{read_address, shown_label};
use pdb_values::{Record, RecordId};
use std::alloc::{AllocError, Global};

/// Appends the card of a record.
pub fn push_card(
    alloc: Global,
    cards: &mut Properties,
    stem: &str,
    app: Option<&[u8]>,
    item: &Record,
) -> Result<(), AllocError>
    requires { is_plain stem.now ≡ true }
    ensures card { OnOk result (cards.new
        ≡ cards.old ++ card_properties (card_of stem.now (option_copied app.entry) item.now)) }
    ensures stored { OnOk result (IsStored (option_copied app.entry) item.now) }
{
    push_head(alloc, cards, item.id, stem)?;
    push_form(alloc, cards, app.unwrap_or(&[]), item)?;
    let label = shown_label(app, item.content.category());
    cards.push_marks(alloc, label, item.content.secret())?;
    cards.push_plain(alloc, "END", "VCARD")?;
    Ok(())
}

// Appends the first properties, with the id and the stem.
fn push_head(
    alloc: Global,
    cards: &mut Properties,
    id: RecordId,
    stem: &str,
) -> Result<(), AllocError>
    requires { is_plain stem.now ≡ true }
    ensures head { OnOk result (cards.new ≡ cards.old ++ head_properties id stem.now) }
    ensures id { OnOk result (id < id_limit) }
{
    cards.push_plain(alloc, "BEGIN", "VCARD")?;
    cards.push_plain(alloc, "VERSION", "3.0")?;
    cards.push_plain(alloc, "PRODID", "-//hotsync//Palm address book//EN")?;
    cards.push_uid(alloc, id, stem)?;
    Ok(())
}

// Appends what the record says, or its bytes, where it is out of its form.
fn push_form(
    alloc: Global,
    cards: &mut Properties,
    block: &[u8],
    item: &Record,
) -> Result<(), AllocError>
    ensures form { OnOk result (cards.new ≡ cards.old ++ form_properties item.now.id
        (form_of block.now item.now.content.bytes (address_in item.now.content.bytes))) }
    ensures bytes { OnOk result (IsBytes item.now.content.bytes) }
    ensures block { OnOk result (IsBytes block.now) }
{
    let bytes = item.content.bytes();
    match read_address(bytes) {
        Ok(address) => push_person(alloc, cards, block, &address)?,
        Err(_) => push_unread(alloc, cards, item.id, bytes)?,
    }
    Ok(())
}

// Appends the bytes of a record that is out of its form.
fn push_unread(
    alloc: Global,
    cards: &mut Properties,
    id: RecordId,
    bytes: &[u8],
) -> Result<(), AllocError>
    ensures { OnOk result (cards.new ≡ cards.old ++ form_properties id (Unread bytes.now)) }
{
    cards.push_unread_name(alloc, "FN", id)?;
    cards.push_plain(alloc, "N", ";;;;")?;
    cards.push_unread_bytes(alloc, bytes)?;
    Ok(())
}
