// A table as bytes.
ghost use Rattle.std.specs.Prelude.{◌≡◌, ◌++◌, OnOk, map};
ghost use Rattle.std.specs.List.{flat_map};
ghost use Rattle.category_tables.specs.Tables.{CategoryValue, entry_value, table_value};
ghost use Rattle.category_tables.specs.Texts.{id_of, label_text, table_text};

use crate::table::{Entry, Table};
use palm_records::until_zero;
use std::alloc::AllocError;

/// Appends the 276 bytes of a table: its flags, the high byte first, its labels, each filled with zero bytes, its ids, its
/// last id, and a zero byte.
pub fn write_table(table: &Table, out: &mut Vec<u8>) -> Result<(), AllocError>
    ensures { OnOk result (out.new.items ≡ out.old.items ++ table_text (table_value table.now)) }
{
    out.extend_from_slice(&[(table.flags / 256) as u8, (table.flags % 256) as u8])?;
    push_labels(&table.entries, out)?;
    push_ids(&table.entries, out)?;
    out.extend_from_slice(&[table.last, 0])?;
    Ok(())
}

// Appends each label.
fn push_labels(entries: &[Entry], out: &mut Vec<u8>) -> Result<(), AllocError>
    ensures { OnOk result (out.new.items
        ≡ out.old.items ++ flat_map label_text (map entry_value entries.now)) }
{
    for entry in entries {
        push_label(entry, out)?;
    }
    Ok(())
}

/// Appends a label, filled with zero bytes.
pub fn push_label(entry: &Entry, out: &mut Vec<u8>) -> Result<(), AllocError>
    ensures { OnOk result (out.new.items ≡ out.old.items ++ label_text (entry_value entry.now)) }
{
    let label = until_zero(&entry.label);
    out.extend_from_slice(label)?;
    out.extend_from_slice(&[0; 16][label.len()..])?;
    Ok(())
}

// Appends each id.
fn push_ids(entries: &[Entry], out: &mut Vec<u8>) -> Result<(), AllocError>
    ensures { OnOk result (out.new.items
        ≡ out.old.items ++ map id_of (map entry_value entries.now)) }
{
    for entry in entries {
        out.push(entry.id)?;
    }
    Ok(())
}
