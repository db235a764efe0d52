//! The text of a file's database in a form.

ghost use Rattle.std.specs.Prelude.{◌≡◌, ◌↔◌, Err, IfErr, IfOk, IsErrOf, Ok as OkValue, false, string_bytes};
ghost use Rattle.calendar_export.specs.Exports.{is_of_kind};
ghost use Rattle.calendar_export.specs.declared.kind.Kind.TheVariants.{Dates, Tasks};
ghost use Rattle.table_export.specs.Exports as table;
ghost use Rattle.table_export.specs.declared.kind.Kind.TheVariants as rows;
ghost use Rattle.hotsync_c.specs.Answers.{Answers};
ghost use Rattle.hotsync_c.specs.Exports.{IsExport, RefusesExport, SaysFault, broken_of, calendar_export, cards_export, form_export, form_of, kind_export, memos_export, privacy_of, refusal_by, rows_export, table_export, told_by, wishes_of};

use crate::entry::read_file;
use crate::refusal::Refusal;
use crate::room::put;
use calendar_export::{dates_text, tasks_text};
use card_export::cards_text;
use memo_texts::memos_text;
use palm_records::{BrokenRecords, ExportFault, Privacy};
use pdb_values::{Database, PalmDate};
use std::alloc::Global;
use table_export::{Marks, addresses_table, tasks_table};

/// A record that is out of its form.
#[repr(C)]
#[derive(Clone, Copy)]
pub struct HsBadRecord {
    /// Its index among all records of the database, from 0 on.
    pub index: u64,
    /// The place in it, from 0 on, where it breaks its form.
    pub place: u64,
}

/// The form of a text.
#[derive(Clone, Copy)]
pub enum ExportForm {
    /// Memos, as plain text.
    Text,
    /// Addresses, as cards.
    Cards,
    /// Addresses or tasks, as a table.
    Table,
    /// Tasks or dates, as a calendar.
    Calendar,
}

/// What is asked of an export.
#[derive(Clone, Copy)]
pub struct ExportWishes {
    /// The form of the text.
    pub form: ExportForm,
    /// When a calendar is made.
    pub made: PalmDate,
    /// Which records are exported.
    pub privacy: Privacy,
    /// What becomes of those that are out of their form.
    pub broken: BrokenRecords,
}

// Both flags.
const ALL_FLAGS: u32 = 3;

/// Puts the text of a file's database in a form into the room: for form 0 its memos as plain text, for 1 its addresses as
/// cards, for 2 its addresses or its tasks as a table, for 3 its tasks or its dates as a calendar that was made so many
/// seconds after the start of 1904. Flag 1 leaves private records out, flag 2 keeps those that are out of their form, with
/// their bytes.
///
/// The answer is how long it is; or -2 for bytes that are no database's file, or where no such form or other flags are
/// asked; -11 where the database holds nothing of that form; -12 where a record is out of its form: `told` says which, and
/// else is as it was; or -1 where memory was refused.
#[unsafe(no_mangle)]
pub extern "C" fn hs_export(
    alloc: Global,
    file: &[u8],
    form: u32,
    made: u32,
    flags: u32,
    room: &mut [u8],
    told: &mut HsBadRecord,
) -> i64
    ensures { Answers
        (λ text. IsExport file.now (wishes_of form made flags) (OkValue text) × (told.new ≡ told.old))
        (λ refusal. RefusesExport file.now (wishes_of form made flags) refusal
        × (told.new ≡ told_by refusal told.old))
        room.old room.new result }
{
    match exported(alloc, file, wishes_of(form, made, flags)) {
        Ok(text) => put(text.as_bytes(), room),
        Err(refusal) => {
            tell(refusal, told);
            refusal.answer()
        }
    }
}

// Tells of a record that is out of its form.
fn tell(refusal: Refusal, told: &mut HsBadRecord)
    ensures { told.new ≡ told_by refusal told.old }
{
    if let Refusal::BadRecord { index, place } = refusal {
        *told = HsBadRecord { index, place };
    }
}

// What is asked, where it is something.
fn wishes_of(form: u32, made: u32, flags: u32) -> Option<ExportWishes>
    ensures { result ≡ wishes_of form made flags }
{
    if flags > ALL_FLAGS {
        return None;
    }
    let form = form_of(form)?;
    Some(ExportWishes {
        form,
        made: PalmDate::of_seconds(made),
        privacy: privacy_of(flags),
        broken: broken_of(flags),
    })
}

// The form of a number.
fn form_of(number: u32) -> Option<ExportForm>
    ensures { result ≡ form_of number }
{
    match number {
        0 => Some(ExportForm::Text),
        1 => Some(ExportForm::Cards),
        2 => Some(ExportForm::Table),
        3 => Some(ExportForm::Calendar),
        _ => None,
    }
}

// Which records are exported.
fn privacy_of(flags: u32) -> Privacy
    ensures { result ≡ privacy_of flags }
{
    if flags % 2 == 1 {
        Privacy::WithoutPrivate
    } else {
        Privacy::All
    }
}

// What becomes of those that are out of their form.
fn broken_of(flags: u32) -> BrokenRecords
    ensures { result ≡ broken_of flags }
{
    if flags > 1 {
        BrokenRecords::Kept
    } else {
        BrokenRecords::Refused
    }
}

// The text of a file's database as it is asked.
fn exported(alloc: Global, file: &[u8], asked: Option<ExportWishes>) -> Result<String, Refusal>
    ensures text { IfOk result (λ text. IsExport file.now asked (OkValue (string_bytes text))) }
    ensures refused { IfErr result (RefusesExport file.now asked) }
{
    let Some(wishes) = asked else {
        return Err(Refusal::Form);
    };
    let database = read_file(alloc, file)?;
    match exported_text(alloc, &wishes, &database) {
        Ok(text) => Ok(text),
        Err(fault) => Err(refusal_by(fault)),
    }
}

// The refusal of a database that gives no text.
fn refusal_by(fault: ExportFault) -> Refusal
    ensures { result ≡ refusal_by fault }
{
    match fault {
        ExportFault::CannotExport => Refusal::Nothing,
        ExportFault::BadRecord { index, place } => Refusal::BadRecord {
            index: index as u64,
            place: place as u64,
        },
        ExportFault::NoMemory => Refusal::Memory,
    }
}

// The text of a database in the form that is wanted.
fn exported_text(
    alloc: Global,
    wishes: &ExportWishes,
    database: &Database,
) -> Result<String, ExportFault>
    ensures text { IfOk result (λ text. form_export wishes.now.form wishes.now database.now
        ≡ OkValue (string_bytes text)) }
    ensures refused { IfErr result (SaysFault (form_export wishes.now.form wishes.now database.now)) }
{
    match wishes.form {
        ExportForm::Text => plain_text(alloc, wishes, database),
        ExportForm::Cards => card_text(alloc, wishes, database),
        ExportForm::Table => table_text(alloc, wishes, database),
        ExportForm::Calendar => calendar_text(alloc, wishes, database),
    }
}

// Its memos, as plain text.
fn plain_text(
    alloc: Global,
    wishes: &ExportWishes,
    database: &Database,
) -> Result<String, ExportFault>
    ensures text { IfOk result (λ text. memos_export wishes.now database.now
        ≡ OkValue (string_bytes text)) }
    ensures refused { IfErr result (SaysFault (memos_export wishes.now database.now)) }
{
    memos_text(alloc, database, wishes.privacy)
}

// Its addresses, as cards.
fn card_text(
    alloc: Global,
    wishes: &ExportWishes,
    database: &Database,
) -> Result<String, ExportFault>
    ensures text { IfOk result (λ text. cards_export wishes.now database.now
        ≡ OkValue (string_bytes text)) }
    ensures refused { IfErr result (SaysFault (cards_export wishes.now database.now)) }
{
    cards_text(alloc, database, wishes.privacy, wishes.broken)
}

// Its addresses, as a table.
fn address_rows(
    alloc: Global,
    wishes: &ExportWishes,
    database: &Database,
) -> Result<String, ExportFault>
    ensures text { IfOk result (λ text. rows_export rows.Addresses wishes.now database.now
        ≡ OkValue (string_bytes text)) }
    ensures refused { IfErr result (SaysFault (rows_export rows.Addresses wishes.now database.now)) }
    ensures kind { IsErrOf result ExportFault.CannotExport
        ↔ (table.is_of_kind rows.Addresses database.now.head ≡ false) }
{
    addresses_table(
        alloc,
        database,
        Marks::Absent,
        wishes.privacy,
        wishes.broken,
    )
}

// Its tasks, likewise.
fn task_rows(
    alloc: Global,
    wishes: &ExportWishes,
    database: &Database,
) -> Result<String, ExportFault>
    ensures text { IfOk result (λ text. rows_export rows.Tasks wishes.now database.now
        ≡ OkValue (string_bytes text)) }
    ensures refused { IfErr result (SaysFault (rows_export rows.Tasks wishes.now database.now)) }
{
    tasks_table(
        alloc,
        database,
        Marks::Absent,
        wishes.privacy,
        wishes.broken,
    )
}

// Its addresses or its tasks.
fn table_text(
    alloc: Global,
    wishes: &ExportWishes,
    database: &Database,
) -> Result<String, ExportFault>
    ensures text { IfOk result (λ text. table_export wishes.now database.now
        ≡ OkValue (string_bytes text)) }
    ensures refused { IfErr result (SaysFault (table_export wishes.now database.now)) }
{
    match address_rows(alloc, wishes, database) {
        Err(ExportFault::CannotExport) => task_rows(alloc, wishes, database),
        answer => answer,
    }
}

// Its tasks, as a calendar that is made then.
fn task_text(
    alloc: Global,
    wishes: &ExportWishes,
    database: &Database,
) -> Result<String, ExportFault>
    ensures text { IfOk result (λ text. kind_export Tasks wishes.now database.now
        ≡ OkValue (string_bytes text)) }
    ensures refused { IfErr result (SaysFault (kind_export Tasks wishes.now database.now)) }
    ensures kind { IsErrOf result ExportFault.CannotExport
        ↔ (is_of_kind Tasks database.now.head ≡ false) }
{
    tasks_text(alloc, database, wishes.made, wishes.privacy, wishes.broken)
}

// Its dates, likewise.
fn date_text(
    alloc: Global,
    wishes: &ExportWishes,
    database: &Database,
) -> Result<String, ExportFault>
    ensures text { IfOk result (λ text. kind_export Dates wishes.now database.now
        ≡ OkValue (string_bytes text)) }
    ensures refused { IfErr result (SaysFault (kind_export Dates wishes.now database.now)) }
{
    dates_text(alloc, database, wishes.made, wishes.privacy, wishes.broken)
}

// Its tasks or its dates.
fn calendar_text(
    alloc: Global,
    wishes: &ExportWishes,
    database: &Database,
) -> Result<String, ExportFault>
    ensures text { IfOk result (λ text. calendar_export wishes.now database.now
        ≡ OkValue (string_bytes text)) }
    ensures refused { IfErr result (SaysFault (calendar_export wishes.now database.now)) }
{
    match task_text(alloc, wishes, database) {
        Err(ExportFault::CannotExport) => date_text(alloc, wishes, database),
        answer => answer,
    }
}
