// The row of a record.
ghost use Rattle.std.specs.Prelude.{◌≡◌, ◌++◌, IfOk, OnOk, string_bytes};
ghost use Rattle.std.specs.Option.{option_copied};
ghost use Rattle.csv.specs.Records.{fields_of};
ghost use Rattle.palm_records.specs.Addresses.{address_in};
ghost use Rattle.palm_records.specs.Tasks.{task_in};
ghost use Rattle.table_export.specs.Exports.{address_or, content_columns, item_row, item_text, origin_columns, private_text, task_or};

use crate::address::push_address;
use crate::csv_row::push_row;
use crate::field::{push_hex, push_palm, push_unread};
use crate::kind::{Kind, Marks};
use crate::task::push_task;
use csv::StringRecord;
use palm_records::{Privacy, is_exported, read_address, read_task, shown_label};
use pdb_values::Record;
use std::alloc::{AllocError, Global};

/// How many columns an address has: its fields, and the kinds of its phones.
const ADDRESS_COLUMNS: usize = 24;

/// How many columns a task has.
const TASK_COLUMNS: usize = 5;

/// Appends the row of a record, where it is exported.
pub fn push_item(
    alloc: Global,
    text: &mut String,
    marks: Marks,
    kind: Kind,
    app: Option<&[u8]>,
    privacy: Privacy,
    item: &Record,
) -> Result<(), AllocError>
    ensures { OnOk result (string_bytes text.new ≡ string_bytes text.old
        ++ item_text marks kind (option_copied app.entry) privacy item.now) }
{
    if !is_exported(privacy, item) {
        return Ok(());
    }
    let row = item_row(alloc, kind, app, item)?;
    push_row(alloc, text, marks, &row)?;
    Ok(())
}

// The row of a record.
fn item_row(
    alloc: Global,
    kind: Kind,
    app: Option<&[u8]>,
    item: &Record,
) -> Result<StringRecord, AllocError>
    ensures { IfOk result (λ row. fields_of row ≡ item_row kind (option_copied app.entry) item.now) }
{
    let mut row = StringRecord::new(alloc);
    push_origin(alloc, &mut row, app, item)?;
    push_content(alloc, &mut row, kind, item.content.bytes())?;
    Ok(row)
}

// Appends the id, the mark of a private record and the label of the category.
fn push_origin(
    alloc: Global,
    row: &mut StringRecord,
    app: Option<&[u8]>,
    item: &Record,
) -> Result<(), AllocError>
    ensures { OnOk result (fields_of row.new
        ≡ fields_of row.old ++ origin_columns (option_copied app.entry) item.now) }
{
    push_hex(alloc, row, &item.id.number().to_be_bytes()[1..])?;
    row.push_field(private_text(item.content.secret()))?;
    push_palm(alloc, row, shown_label(app, item.content.category()))?;
    Ok(())
}

// The mark of a private record.
fn private_text(secret: bool) -> &'static str
    ensures { result.now ≡ private_text secret }
{
    if secret { "private" } else { "" }
}

// Appends the columns of what a record's bytes say, or of the bytes.
fn push_content(
    alloc: Global,
    row: &mut StringRecord,
    kind: Kind,
    bytes: &[u8],
) -> Result<(), AllocError>
    ensures { OnOk result (fields_of row.new
        ≡ fields_of row.old ++ content_columns kind bytes.now) }
{
    match kind {
        Kind::Addresses => push_address_or(alloc, row, bytes),
        Kind::Tasks => push_task_or(alloc, row, bytes),
    }
}

// Appends the columns of an address, or of its bytes.
fn push_address_or(alloc: Global, row: &mut StringRecord, bytes: &[u8]) -> Result<(), AllocError>
    ensures { OnOk result (fields_of row.new
        ≡ fields_of row.old ++ address_or bytes.now (address_in bytes.now)) }
{
    let Ok(address) = read_address(bytes) else {
        return push_unread(alloc, row, ADDRESS_COLUMNS, bytes);
    };
    push_address(alloc, row, &address)?;
    row.push_field("")?;
    Ok(())
}

// Appends the columns of a task, or of its bytes.
fn push_task_or(alloc: Global, row: &mut StringRecord, bytes: &[u8]) -> Result<(), AllocError>
    ensures { OnOk result (fields_of row.new
        ≡ fields_of row.old ++ task_or bytes.now (task_in bytes.now)) }
{
    let Ok(task) = read_task(bytes) else {
        return push_unread(alloc, row, TASK_COLUMNS, bytes);
    };
    push_task(alloc, row, task)?;
    row.push_field("")?;
    Ok(())
}
