// The addresses and the tasks of a database as tables.
ghost use Rattle.std.specs.Prelude.{◌≡◌, ◌↔◌, All, IfOk, IsErrOf, List, None, false, map, string_bytes, ℕ};
ghost use Rattle.palm_records.specs.declared.choice.BrokenRecords.TheVariants.{Refused};
ghost use Rattle.table_export.specs.Exports.{IsRefusedAt, exported_rows, first_bad_item, is_of_kind};
ghost use Rattle.table_export.specs.Tables.{IsRow, rows_in, shown_row, table_text};
ghost use Rattle.table_export.specs.declared.kind.Kind.TheVariants.{Addresses, Tasks};

use crate::csv_row::push_row;
use crate::head::head_row;
use crate::item::push_item;
use crate::kind::{Kind, Marks};
use content_lines::{AddressForm, TaskForm, holds, refuse_broken};
use palm_records::{BrokenRecords, ExportFault, Privacy};
use pdb_values::Database;
use std::alloc::{AllocError, Global};

/// The addresses of a database as a table in CSV, in UTF-8: a head line with the names of the columns, and a line for each
/// address that is exported, in the order of their records. A field that a spreadsheet takes for a formula has a mark where `marks` say so. A
/// record that is out of its form refuses the text, or is a line with its bytes.
pub fn addresses_table(
    alloc: Global,
    database: &Database,
    marks: Marks,
    privacy: Privacy,
    broken: BrokenRecords,
) -> Result<String, ExportFault>
    ensures text { IfOk result (λ text. string_bytes text
        ≡ table_text marks (exported_rows Addresses privacy database.now)) }
    ensures rows { IfOk result (λ text. rows_in (string_bytes text)
        ≡ map (shown_row marks) (exported_rows Addresses privacy database.now)) }
    ensures alone { IfOk result (λ text. (rows : List (List (List ℕ))) → All IsRow rows
        → table_text marks rows ≡ string_bytes text
        → rows ≡ exported_rows Addresses privacy database.now) }
    ensures kind { IsErrOf result ExportFault.CannotExport
        ↔ (is_of_kind Addresses database.now.head ≡ false) }
    ensures bad { (index place : ℕ) → IsErrOf result (ExportFault.BadRecord index place)
        ↔ IsRefusedAt Addresses privacy broken database.now index place }
    ensures read { IfOk result (λ _. broken ≡ Refused
        → first_bad_item Addresses privacy database.now ≡ None) }
{
    if !holds(database.head(), *b"addr") {
        return Err(ExportFault::CannotExport);
    }
    refuse_broken::<AddressForm>(database.records(), privacy, broken)?;
    let text = table_text(alloc, marks, Kind::Addresses, database, privacy)?;
    Ok(text)
}

/// The tasks of a database as a table in CSV, in UTF-8: a head line with the names of the columns, and a line for each task
/// that is exported, in the order of their records. A record that is out of its form refuses the text, or is a line with
/// its bytes.
pub fn tasks_table(
    alloc: Global,
    database: &Database,
    marks: Marks,
    privacy: Privacy,
    broken: BrokenRecords,
) -> Result<String, ExportFault>
    ensures text { IfOk result (λ text. string_bytes text
        ≡ table_text marks (exported_rows Tasks privacy database.now)) }
    ensures rows { IfOk result (λ text. rows_in (string_bytes text)
        ≡ map (shown_row marks) (exported_rows Tasks privacy database.now)) }
    ensures alone { IfOk result (λ text. (rows : List (List (List ℕ))) → All IsRow rows
        → table_text marks rows ≡ string_bytes text
        → rows ≡ exported_rows Tasks privacy database.now) }
    ensures kind { IsErrOf result ExportFault.CannotExport
        ↔ (is_of_kind Tasks database.now.head ≡ false) }
    ensures bad { (index place : ℕ) → IsErrOf result (ExportFault.BadRecord index place)
        ↔ IsRefusedAt Tasks privacy broken database.now index place }
    ensures read { IfOk result (λ _. broken ≡ Refused
        → first_bad_item Tasks privacy database.now ≡ None) }
{
    if !holds(database.head(), *b"todo") {
        return Err(ExportFault::CannotExport);
    }
    refuse_broken::<TaskForm>(database.records(), privacy, broken)?;
    let text = table_text(alloc, marks, Kind::Tasks, database, privacy)?;
    Ok(text)
}

// The text of a database's rows.
fn table_text(
    alloc: Global,
    marks: Marks,
    kind: Kind,
    database: &Database,
    privacy: Privacy,
) -> Result<String, AllocError>
    ensures { IfOk result (λ text. string_bytes text
        ≡ table_text marks (exported_rows kind privacy database.now)) }
{
    let mut text = String::new(alloc);
    let head = head_row(alloc, kind, database.app().unwrap_or(&[]))?;
    push_row(alloc, &mut text, marks, &head)?;
    for item in database.records() {
        push_item(alloc, &mut text, marks, kind, database.app(), privacy, item)?;
    }
    Ok(text)
}
