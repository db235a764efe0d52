// The records of a database as a text.
ghost use Rattle.std.specs.Prelude.{◌≡◌, ◌↔◌, ◌++◌, All, IfOk, IsErrOf, List, None, OnOk, false, string_bytes, true, ℕ};
ghost use Rattle.std.specs.Option.{option_copied};
ghost use Rattle.pdb_values.specs.Stems.{stem_of};
ghost use Rattle.palm_records.specs.Choices.{first_bad};
ghost use Rattle.palm_records.specs.declared.choice.BrokenRecords.TheVariants.{Refused};
ghost use Rattle.content_lines.specs.Properties.{is_plain};
ghost use Rattle.calendar_export.specs.Components.{IsOrigin, origin_value, source_value};
ghost use Rattle.calendar_export.specs.Items.{IsContent, IsItem, Item, calendar_of, calendar_text, content_properties};
ghost use Rattle.calendar_export.specs.Exports.{IsRefusedAt, IsSaid, added_properties, content_in, date_place, exported, fault_of, is_of_kind, origin_of, source_of};
ghost use Rattle.calendar_export.specs.declared.kind.Kind.TheVariants.{Dates, Tasks};

use crate::component::{Origin, Source, push_journal, push_opening};
use crate::date::push_event;
use crate::kind::Kind;
use crate::task::push_todo;
use content_lines::{Form, Properties, TaskForm, holds, plain_stem, refuse_broken};
use palm_events::read_event;
use palm_records::{BrokenRecords, ExportFault, Privacy, is_exported, read_task, shown_label};
use pdb_values::{Database, PalmDate, Record};
use std::alloc::{AllocError, Global};

// The form of dates.
struct DateForm;

impl Form for DateForm {
    ghost fault = { date_place };

    fn place(bytes: &[u8]) -> Option<usize> {
        match read_event(bytes) {
            Ok(_) => None,
            Err(bad) => Some(bad.place),
        }
    }
}

/// The tasks of a database as one iCalendar object: a VTODO for each exported record, in their order. `made` is the time
/// at which the text is made. A record that is out of its form refuses the whole text, or is kept as a VJOURNAL with its
/// bytes. It is the text of no other tasks.
pub fn tasks_text(
    alloc: Global,
    database: &Database,
    made: PalmDate,
    privacy: Privacy,
    broken: BrokenRecords,
) -> Result<String, ExportFault>
    ensures text { IfOk result (λ text. string_bytes text
        ≡ calendar_text (source_of made database.now) (exported Tasks privacy database.now)) }
    ensures alone { IfOk result (λ text. (items : List Item) → All (IsItem Tasks) items
        → calendar_text (source_of made database.now) items ≡ string_bytes text
        → items ≡ exported Tasks privacy database.now) }
    ensures kind { IsErrOf result ExportFault.CannotExport
        ↔ (is_of_kind Tasks database.now.head ≡ false) }
    ensures bad { (index place : ℕ) → IsErrOf result (ExportFault.BadRecord index place)
        ↔ IsRefusedAt Tasks privacy broken database.now index place }
    ensures read { IfOk result (λ _. broken ≡ Refused
        → first_bad (fault_of Tasks) privacy 0 database.now.records ≡ None) }
{
    if !holds(database.head(), *b"todo") {
        return Err(ExportFault::CannotExport);
    }
    refuse_broken::<TaskForm>(database.records(), privacy, broken)?;
    let calendar = calendar_of(alloc, Kind::Tasks, database, made, privacy)?;
    let text = calendar.text(alloc)?;
    Ok(text)
}

/// The dates of a database as one iCalendar object: a VEVENT for each exported record, in their order. `made` is the time
/// at which the text is made. A record that is out of its form refuses the whole text, or is kept as a VJOURNAL with its
/// bytes. It is the text of no other dates.
pub fn dates_text(
    alloc: Global,
    database: &Database,
    made: PalmDate,
    privacy: Privacy,
    broken: BrokenRecords,
) -> Result<String, ExportFault>
    ensures text { IfOk result (λ text. string_bytes text
        ≡ calendar_text (source_of made database.now) (exported Dates privacy database.now)) }
    ensures alone { IfOk result (λ text. (items : List Item) → All (IsItem Dates) items
        → calendar_text (source_of made database.now) items ≡ string_bytes text
        → items ≡ exported Dates privacy database.now) }
    ensures kind { IsErrOf result ExportFault.CannotExport
        ↔ (is_of_kind Dates database.now.head ≡ false) }
    ensures bad { (index place : ℕ) → IsErrOf result (ExportFault.BadRecord index place)
        ↔ IsRefusedAt Dates privacy broken database.now index place }
    ensures read { IfOk result (λ _. broken ≡ Refused
        → first_bad (fault_of Dates) privacy 0 database.now.records ≡ None) }
{
    if !holds(database.head(), *b"date") {
        return Err(ExportFault::CannotExport);
    }
    refuse_broken::<DateForm>(database.records(), privacy, broken)?;
    let calendar = calendar_of(alloc, Kind::Dates, database, made, privacy)?;
    let text = calendar.text(alloc)?;
    Ok(text)
}

// The object with all records that are exported.
fn calendar_of(
    alloc: Global,
    kind: Kind,
    database: &Database,
    made: PalmDate,
    privacy: Privacy,
) -> Result<Properties, AllocError>
    ensures calendar { IfOk result (λ calendar. calendar
        ≡ calendar_of (source_of made database.now) (exported kind privacy database.now)) }
    ensures items { OnOk result (All (IsSaid kind database.now.app privacy) database.now.records) }
    ensures plain { OnOk result (is_plain (stem_of database.now.head.name) ≡ true) }
{
    let stem = plain_stem(alloc, &database.head().name)?;
    let source = Source {
        made,
        stem: stem.as_str(),
    };
    let mut calendar = Properties::new(alloc);
    push_opening(alloc, &mut calendar)?;
    for item in database.records() {
        push_item(
            alloc,
            &mut calendar,
            &source,
            kind,
            database.app(),
            privacy,
            item,
        )?;
    }
    calendar.push_plain(alloc, "END", "VCALENDAR")?;
    Ok(calendar)
}

// Appends a record, where it is exported.
fn push_item(
    alloc: Global,
    calendar: &mut Properties,
    source: &Source<'_>,
    kind: Kind,
    app: Option<&[u8]>,
    privacy: Privacy,
    item: &Record,
) -> Result<(), AllocError>
    requires { is_plain source.now.stem.now ≡ true }
    ensures text { OnOk result (calendar.new ≡ calendar.old
        ++ added_properties (source_value source.now) kind (option_copied app.entry) privacy item.now) }
    ensures item { OnOk result (IsSaid kind (option_copied app.entry) privacy item.now) }
{
    if !is_exported(privacy, item) {
        return Ok(());
    }
    let origin = origin_of(app, item);
    push_content(alloc, calendar, source, kind, &origin, item.content.bytes())?;
    Ok(())
}

// What is said of a record, with the labels of an app block.
fn origin_of<'a>(app: Option<&'a [u8]>, item: &Record) -> Origin<'a>
    ensures value { origin_value result ≡ origin_of (option_copied app.entry) item.now }
    ensures form { IsOrigin (origin_value result) }
{
    let label = shown_label(app, item.content.category());
    Origin::new(item.id, item.content.secret(), label)
}

// Appends what a record says, or its bytes.
fn push_content(
    alloc: Global,
    calendar: &mut Properties,
    source: &Source<'_>,
    kind: Kind,
    origin: &Origin<'_>,
    bytes: &[u8],
) -> Result<(), AllocError>
    requires { is_plain source.now.stem.now ≡ true }
    ensures text { OnOk result (calendar.new ≡ calendar.old
        ++ content_properties (source_value source.now) (origin_value origin.now) (content_in kind bytes.now)) }
    ensures form { OnOk result (IsContent kind (content_in kind bytes.now)) }
{
    match kind {
        Kind::Tasks => push_task(alloc, calendar, source, origin, bytes),
        Kind::Dates => push_date(alloc, calendar, source, origin, bytes),
    }
}

// Appends a task, or its bytes.
fn push_task(
    alloc: Global,
    calendar: &mut Properties,
    source: &Source<'_>,
    origin: &Origin<'_>,
    bytes: &[u8],
) -> Result<(), AllocError>
    requires { is_plain source.now.stem.now ≡ true }
    ensures text { OnOk result (calendar.new ≡ calendar.old
        ++ content_properties (source_value source.now) (origin_value origin.now) (content_in Tasks bytes.now)) }
    ensures form { IsContent Tasks (content_in Tasks bytes.now) }
{
    match read_task(bytes) {
        Ok(task) => push_todo(alloc, calendar, source, origin, task),
        Err(_) => push_journal(alloc, calendar, source, origin, bytes),
    }
}

// Appends a date, or its bytes.
fn push_date(
    alloc: Global,
    calendar: &mut Properties,
    source: &Source<'_>,
    origin: &Origin<'_>,
    bytes: &[u8],
) -> Result<(), AllocError>
    requires { is_plain source.now.stem.now ≡ true }
    ensures text { OnOk result (calendar.new ≡ calendar.old
        ++ content_properties (source_value source.now) (origin_value origin.now) (content_in Dates bytes.now)) }
    ensures form { OnOk result (IsContent Dates (content_in Dates bytes.now)) }
{
    match read_event(bytes) {
        Ok(event) => push_event(alloc, calendar, source, origin, &event),
        Err(_) => push_journal(alloc, calendar, source, origin, bytes),
    }
}
