// Fields of a row.
ghost use Rattle.std.specs.Prelude.{◌≡◌, ◌++◌, ◌∷◌, [], OnOk, replicate};
ghost use Rattle.csv.specs.Records.{fields_of};
ghost use Rattle.hex.specs.Hex.{encode_lower};
ghost use Rattle.table_export.specs.Exports.{unread_columns};
ghost use Rattle.table_export.specs.Tables.{palm_field};

use csv::StringRecord;
use palm_records::push_text;
use std::alloc::{AllocError, Global};

/// Appends a text of a Palm as a field.
pub fn push_palm(alloc: Global, row: &mut StringRecord, value: &[u8]) -> Result<(), AllocError>
    ensures { OnOk result (fields_of row.new ≡ fields_of row.old ++ palm_field value.now ∷ []) }
{
    let mut text = String::new(alloc);
    push_text(&mut text, value)?;
    row.push_field(text.as_str())?;
    Ok(())
}

/// Appends bytes in hexadecimal as a field.
pub fn push_hex(alloc: Global, row: &mut StringRecord, bytes: &[u8]) -> Result<(), AllocError>
    ensures { OnOk result (fields_of row.new ≡ fields_of row.old ++ encode_lower bytes.now ∷ []) }
{
    let digits = hex::encode(alloc, bytes)?;
    row.push_field(digits.as_str())?;
    Ok(())
}

/// Appends the columns of a record that is out of its form.
pub fn push_unread(
    alloc: Global,
    row: &mut StringRecord,
    count: usize,
    bytes: &[u8],
) -> Result<(), AllocError>
    ensures { OnOk result (fields_of row.new
        ≡ fields_of row.old ++ unread_columns count bytes.now) }
{
    push_empty(row, count)?;
    push_hex(alloc, row, bytes)?;
    Ok(())
}

// Appends empty fields.
fn push_empty(row: &mut StringRecord, count: usize) -> Result<(), AllocError>
    ensures { OnOk result (fields_of row.new ≡ fields_of row.old ++ replicate count []) }
{
    for number in 0..count {
        row.push_field("")?;
    }
    Ok(())
}
