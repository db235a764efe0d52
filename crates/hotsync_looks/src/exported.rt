// The text of a database in the form that is wanted.
ghost use Rattle.std.specs.Prelude.{◌≡◌, ◌↔◌, IfErr, IfOk, IsErrOf, Ok as OkValue, false, string_bytes};
ghost use Rattle.hotsync_looks.specs.ExportTexts as texts;
ghost use Rattle.hotsync_looks.specs.ExportTexts.{SaysNoText, calendar_export, cards_export, form_export, kind_export, memos_export, rows_export, table_export};
ghost use Rattle.calendar_export.specs.Exports.{is_of_kind};
ghost use Rattle.calendar_export.specs.declared.kind.Kind.TheVariants.{Dates, Tasks};
ghost use Rattle.table_export.specs.Exports as table;
ghost use Rattle.table_export.specs.declared.kind.Kind.TheVariants as rows;

use calendar_export::{dates_text, tasks_text};
use card_export::cards_text;
use memo_texts::memos_text;
use palm_records::{BrokenRecords, ExportFault, Privacy};
use pdb_values::{Database, PalmDate};
use run_words::{Export, ExportForm};
use std::alloc::Global;
use table_export::{Marks, addresses_table, tasks_table};

/// The text of a database in the form that is wanted.
pub fn exported_text(
    alloc: Global,
    export: Export,
    database: &Database,
) -> Result<String, ExportFault>
    ensures text { IfOk result (λ text. form_export export export.form database.now
        ≡ OkValue (string_bytes text)) }
    ensures refused { IfErr result (SaysNoText (form_export export export.form database.now)) }
{
    match export.form {
        ExportForm::Text => plain_text(alloc, export, database),
        ExportForm::Cards => card_text(alloc, export, database),
        ExportForm::Table => table_text(alloc, export, database),
        ExportForm::Calendar(seconds) => {
            let made = PalmDate::of_seconds(seconds);
            calendar_text(alloc, made, export, database)
        }
    }
}

// Which records are exported.
fn privacy_of(export: Export) -> Privacy
    ensures { result ≡ texts.privacy_of export }
{
    if export.without_private {
        Privacy::WithoutPrivate
    } else {
        Privacy::All
    }
}

// What becomes of those that are out of their form.
fn broken_of(export: Export) -> BrokenRecords
    ensures { result ≡ texts.broken_of export }
{
    if export.keep_broken {
        BrokenRecords::Kept
    } else {
        BrokenRecords::Refused
    }
}

// Which fields of a table have marks.
fn marks_of(export: Export) -> Marks
    ensures { result ≡ texts.marks_of export }
{
    if export.raw {
        Marks::Absent
    } else {
        Marks::Formulas
    }
}

// Its memos, as plain text.
fn plain_text(alloc: Global, export: Export, database: &Database) -> Result<String, ExportFault>
    ensures text { IfOk result (λ text. memos_export export database.now
        ≡ OkValue (string_bytes text)) }
    ensures refused { IfErr result (SaysNoText (memos_export export database.now)) }
{
    memos_text(alloc, database, privacy_of(export))
}

// Its addresses, as cards.
fn card_text(alloc: Global, export: Export, database: &Database) -> Result<String, ExportFault>
    ensures text { IfOk result (λ text. cards_export export database.now
        ≡ OkValue (string_bytes text)) }
    ensures refused { IfErr result (SaysNoText (cards_export export database.now)) }
{
    cards_text(alloc, database, privacy_of(export), broken_of(export))
}

// Its addresses, as a table.
fn address_rows(alloc: Global, export: Export, database: &Database) -> Result<String, ExportFault>
    ensures text { IfOk result (λ text. rows_export rows.Addresses export database.now
        ≡ OkValue (string_bytes text)) }
    ensures refused { IfErr result (SaysNoText
        (rows_export rows.Addresses export database.now)) }
    ensures kind { IsErrOf result ExportFault.CannotExport
        ↔ (table.is_of_kind rows.Addresses database.now.head ≡ false) }
{
    let marks = marks_of(export);
    addresses_table(
        alloc,
        database,
        marks,
        privacy_of(export),
        broken_of(export),
    )
}

// Its tasks, likewise.
fn task_rows(alloc: Global, export: Export, database: &Database) -> Result<String, ExportFault>
    ensures text { IfOk result (λ text. rows_export rows.Tasks export database.now
        ≡ OkValue (string_bytes text)) }
    ensures refused { IfErr result (SaysNoText (rows_export rows.Tasks export database.now)) }
{
    let marks = marks_of(export);
    tasks_table(
        alloc,
        database,
        marks,
        privacy_of(export),
        broken_of(export),
    )
}

// Its addresses or its tasks.
fn table_text(alloc: Global, export: Export, database: &Database) -> Result<String, ExportFault>
    ensures text { IfOk result (λ text. table_export export database.now
        ≡ OkValue (string_bytes text)) }
    ensures refused { IfErr result (SaysNoText (table_export export database.now)) }
{
    match address_rows(alloc, export, database) {
        Err(ExportFault::CannotExport) => task_rows(alloc, export, database),
        answer => answer,
    }
}

// Its tasks, as a calendar that was made then.
fn task_text(
    alloc: Global,
    made: PalmDate,
    export: Export,
    database: &Database,
) -> Result<String, ExportFault>
    ensures text { IfOk result (λ text. kind_export Tasks made export database.now
        ≡ OkValue (string_bytes text)) }
    ensures refused { IfErr result (SaysNoText (kind_export Tasks made export database.now)) }
    ensures kind { IsErrOf result ExportFault.CannotExport
        ↔ (is_of_kind Tasks database.now.head ≡ false) }
{
    tasks_text(alloc, database, made, privacy_of(export), broken_of(export))
}

// Its dates, likewise.
fn date_text(
    alloc: Global,
    made: PalmDate,
    export: Export,
    database: &Database,
) -> Result<String, ExportFault>
    ensures text { IfOk result (λ text. kind_export Dates made export database.now
        ≡ OkValue (string_bytes text)) }
    ensures refused { IfErr result (SaysNoText (kind_export Dates made export database.now)) }
{
    dates_text(alloc, database, made, privacy_of(export), broken_of(export))
}

// Its tasks or its dates.
fn calendar_text(
    alloc: Global,
    made: PalmDate,
    export: Export,
    database: &Database,
) -> Result<String, ExportFault>
    ensures text { IfOk result (λ text. calendar_export made export database.now
        ≡ OkValue (string_bytes text)) }
    ensures refused { IfErr result (SaysNoText (calendar_export made export database.now)) }
{
    match task_text(alloc, made, export, database) {
        Err(ExportFault::CannotExport) => date_text(alloc, made, export, database),
        answer => answer,
    }
}
