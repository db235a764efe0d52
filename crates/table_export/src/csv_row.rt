// The text of one row.
ghost use Rattle.std.specs.Prelude.{◌≡◌, ◌<◌, ◌++◌, [], IfOk, OnOk, length, slice_index_or, string_bytes};
ghost use Rattle.std.specs.Str.{IsUtf8};
ghost use Rattle.csv.specs.Records.{AllText, fields_of};
ghost use Rattle.csv.specs.Writing.{row_text};
ghost use Rattle.table_export.specs.Tables.{line_of, table_writer};

use crate::kind::Marks;
use crate::mark::marked_row;
use csv::{Error, StringRecord, Terminator, WriterBuilder};
use std::alloc::{AllocError, Global};
use std::str;

/// Appends the line of a row, with marks or without.
pub fn push_row(
    alloc: Global,
    text: &mut String,
    marks: Marks,
    row: &StringRecord,
) -> Result<(), AllocError>
    ensures { OnOk result (string_bytes text.new
        ≡ string_bytes text.old ++ line_of marks (fields_of row.now)) }
{
    match marks {
        Marks::Absent => push_line(alloc, text, row),
        Marks::Formulas => {
            let row = marked_row(alloc, row)?;
            push_line(alloc, text, &row)
        }
    }
}

// Appends the line of a row of fields as they are.
fn push_line(alloc: Global, text: &mut String, row: &StringRecord) -> Result<(), AllocError>
    ensures { OnOk result (string_bytes text.new
        ≡ string_bytes text.old ++ row_text table_writer (fields_of row.now)) }
{
    let Ok(bytes) = row_bytes(alloc, row) else {
        return Err(AllocError);
    };
    let line = str::from_utf8(bytes.as_slice()).unwrap();
    text.push_str(line)?;
    Ok(())
}

// A row of texts has texts for its fields.
fn fields_are_text(row: &StringRecord)
    ensures { AllText (fields_of row.now) }
{
    for place in 0..row.len() {
        let _field = field_in(row, place);
    }
}

/// The text of the field at a place.
pub fn field_in(row: &StringRecord, place: usize) -> &str
    requires { place < length (fields_of row.now) }
    ensures { result.now ≡ slice_index_or (fields_of row.now) place [] }
{
    match row.get(place) {
        Some(field) => field,
        None => unreachable!(),
    }
}

// The bytes of that line. Only memory can be lacking.
fn row_bytes(alloc: Global, row: &StringRecord) -> Result<Vec<u8>, Error>
    ensures bytes { IfOk result (λ bytes. bytes.items ≡ row_text table_writer (fields_of row.now)) }
    ensures text { IfOk result (λ bytes. IsUtf8 bytes.items) }
{
    fields_are_text(row);
    let mut writer = WriterBuilder::new()
        .terminator(Terminator::CRLF)
        .from_writer(Vec::new(alloc));
    writer.write_byte_record(row.as_byte_record())?;
    match writer.into_inner() {
        Ok(bytes) => Ok(bytes),
        Err(fault) => Err(fault.into_error()),
    }
}
