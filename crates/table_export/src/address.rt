// The columns of an address.
ghost use Rattle.std.specs.Prelude.{◌≡◌, ◌≤◌, ◌<◌, ◌++◌, ◌∷◌, [], OnOk};
ghost use Rattle.palm_records.specs.Addresses.{address_value};
ghost use Rattle.card_export.specs.Exports.{field_text};
ghost use Rattle.csv.specs.Records.{fields_of};
ghost use Rattle.table_export.specs.Addresses as spec;
ghost use Rattle.table_export.specs.Addresses.{address_columns, field_columns, kind_columns};

use crate::field::push_palm;
use csv::StringRecord;
use palm_records::{Address, FIELDS};
use std::alloc::{AllocError, Global};

/// The first of the five phones.
const PHONES: usize = 3;

/// The field behind them.
const BEHIND_PHONES: usize = 8;

/// Appends the columns of an address.
pub fn push_address(
    alloc: Global,
    row: &mut StringRecord,
    address: &Address<'_>,
) -> Result<(), AllocError>
    ensures { OnOk result (fields_of row.new
        ≡ fields_of row.old ++ address_columns (address_value address.now)) }
{
    for number in 0..FIELDS {
        push_field(alloc, row, address, number)?;
    }
    Ok(())
}

// Appends the columns of a field.
fn push_field(
    alloc: Global,
    row: &mut StringRecord,
    address: &Address<'_>,
    number: usize,
) -> Result<(), AllocError>
    requires { number < 19 }
    ensures { OnOk result (fields_of row.new
        ≡ fields_of row.old ++ field_columns (address_value address.now) number) }
{
    push_kind(row, address, number)?;
    push_palm(alloc, row, field(address, number))?;
    Ok(())
}

// Appends the kind of a phone, where a field is one.
fn push_kind(row: &mut StringRecord, address: &Address<'_>, number: usize) -> Result<(), AllocError>
    requires { number < 19 }
    ensures { OnOk result (fields_of row.new
        ≡ fields_of row.old ++ kind_columns (address_value address.now) number) }
{
    if PHONES <= number && number < BEHIND_PHONES {
        row.push_field(phone_kind(address, number))?;
    }
    Ok(())
}

// The kind of the phone in a field, nothing where there is no phone.
fn phone_kind(address: &Address<'_>, number: usize) -> &'static str
    requires low { 3 ≤ number }
    requires high { number < 8 }
    ensures { result.now ≡ spec.phone_kind (address_value address.now) number }
{
    if field(address, number).is_empty() {
        ""
    } else {
        kind_word(address.kinds[number - PHONES])
    }
}

// The word for a kind of phone.
fn kind_word(kind: u8) -> &'static str
    ensures { result.now ≡ spec.kind_word kind }
{
    match kind {
        0 => "work",
        1 => "home",
        2 => "fax",
        3 => "other",
        4 => "e-mail",
        5 => "main",
        6 => "pager",
        _ => "mobile",
    }
}

// The text of a field, empty where it is not there.
fn field<'a>(address: &Address<'a>, number: usize) -> &'a [u8]
    requires { number < 19 }
    ensures { result.now ≡ field_text (address_value address.now) number }
{
    address.fields[number].unwrap_or(&[])
}
