// The addresses of a database as cards.
ghost use Rattle.std.specs.Prelude.{◌≡◌, ◌↔◌, ◌++◌, All, IfOk, IsErrOf, List, None, OnOk, false, string_bytes, true, ℕ};
ghost use Rattle.std.specs.List.{flat_map};
ghost use Rattle.std.specs.Option.{option_copied};
ghost use Rattle.pdb_values.specs.Stems.{stem_of};
ghost use Rattle.content_lines.specs.Properties.{is_plain};
ghost use Rattle.palm_records.specs.declared.choice.BrokenRecords.TheVariants.{Refused};
ghost use Rattle.card_export.specs.Cards.{CardValue, IsCard};
ghost use Rattle.card_export.specs.Exports.{IsItem, IsRefusedAt, exported_cards, first_bad_address, holds_addresses, item_properties};
ghost use Rattle.card_export.specs.Properties.{card_properties, cards_text};

use crate::card::push_card;
use content_lines::{AddressForm, Properties, holds, plain_stem, refuse_broken};
use palm_records::{BrokenRecords, ExportFault, Privacy, is_exported};
use pdb_values::{Database, Record};
use std::alloc::{AllocError, Global};

/// The addresses of a database as vCards, version 3.0, in UTF-8: those that are exported, in the order of their records. It
/// is the text of no other cards. A record that is out of its form refuses the text, or is a card with its bytes.
pub fn cards_text(
    alloc: Global,
    database: &Database,
    privacy: Privacy,
    broken: BrokenRecords,
) -> Result<String, ExportFault>
    ensures text { IfOk result (λ text. string_bytes text
        ≡ cards_text (exported_cards privacy database.now)) }
    ensures alone { IfOk result (λ text. (cards : List CardValue) → All IsCard cards
        → cards_text cards ≡ string_bytes text → cards ≡ exported_cards privacy database.now) }
    ensures kind { IsErrOf result ExportFault.CannotExport
        ↔ (holds_addresses database.now.head ≡ false) }
    ensures bad { (index place : ℕ) → IsErrOf result (ExportFault.BadRecord index place)
        ↔ IsRefusedAt privacy broken database.now index place }
    ensures read { IfOk result (λ _. broken ≡ Refused → first_bad_address privacy database.now ≡ None) }
{
    if !holds(database.head(), *b"addr") {
        return Err(ExportFault::CannotExport);
    }
    refuse_broken::<AddressForm>(database.records(), privacy, broken)?;
    let cards = cards_of(alloc, database, privacy)?;
    let text = cards.text(alloc)?;
    Ok(text)
}

// The cards of all records that are exported.
fn cards_of(alloc: Global, database: &Database, privacy: Privacy) -> Result<Properties, AllocError>
    ensures cards { IfOk result (λ cards. cards
        ≡ flat_map card_properties (exported_cards privacy database.now)) }
    ensures stem { OnOk result (is_plain (stem_of database.now.head.name) ≡ true) }
    ensures stored { OnOk result (All (IsItem database.now.app privacy) database.now.records) }
{
    let stem = plain_stem(alloc, &database.head().name)?;
    let mut cards = Properties::new(alloc);
    for item in database.records() {
        push_item(
            alloc,
            &mut cards,
            stem.as_str(),
            database.app(),
            privacy,
            item,
        )?;
    }
    Ok(cards)
}

// Appends the card of a record, where it is exported.
fn push_item(
    alloc: Global,
    cards: &mut Properties,
    stem: &str,
    app: Option<&[u8]>,
    privacy: Privacy,
    item: &Record,
) -> Result<(), AllocError>
    requires { is_plain stem.now ≡ true }
    ensures card { OnOk result (cards.new
        ≡ cards.old ++ item_properties stem.now (option_copied app.entry) privacy item.now) }
    ensures stored { OnOk result (IsItem (option_copied app.entry) privacy item.now) }
{
    if is_exported(privacy, item) {
        push_card(alloc, cards, stem, app, item)?;
    }
    Ok(())
}
