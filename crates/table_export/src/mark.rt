// Marks in front of fields that a spreadsheet takes for formulas.
ghost use Rattle.std.specs.Prelude.{◌≡◌, ◌++◌, ◌∷◌, [], IfOk, OnOk, map, string_bytes};
ghost use Rattle.csv.specs.Records.{fields_of};
ghost use Rattle.table_export.specs.Tables.{is_marked_first as is_marked_byte, marked, needs_mark as field_needs_mark};

use crate::csv_row::field_in;
use csv::StringRecord;
use std::alloc::{AllocError, Global};

/// A row with a mark in front of each field that needs it.
pub fn marked_row(alloc: Global, row: &StringRecord) -> Result<StringRecord, AllocError>
    ensures { IfOk result (λ shown. fields_of shown ≡ map marked (fields_of row.now)) }
{
    let mut shown = StringRecord::new(alloc);
    for place in 0..row.len() {
        push_marked(alloc, &mut shown, field_in(row, place))?;
    }
    Ok(shown)
}

// Appends a field, with a mark where it needs one.
fn push_marked(alloc: Global, row: &mut StringRecord, field: &str) -> Result<(), AllocError>
    ensures { OnOk result (fields_of row.new ≡ fields_of row.old ++ marked field.now ∷ []) }
{
    if !needs_mark(field.as_bytes()) {
        return row.push_field(field);
    }
    let mut text = String::from_str(alloc, "'")?;
    text.push_str(field)?;
    row.push_field(text.as_str())?;
    Ok(())
}

// Whether a field needs a mark.
fn needs_mark(field: &[u8]) -> bool
    ensures { result ≡ field_needs_mark field.now }
{
    match field {
        [first, ..] => is_marked_first(*first),
        [] => false,
    }
}

// Whether a field with this first byte needs one.
fn is_marked_first(byte: u8) -> bool
    ensures { result ≡ is_marked_byte byte }
{
    byte == b'='
        || byte == b'+'
        || byte == b'-'
        || byte == b'@'
        || byte == b'\t'
        || byte == b'\r'
        || byte == b'\''
}
