// A look at a file: at the database in it, or at the trace.
ghost use Rattle.std.specs.Prelude.{◌≡◌, ◌≤◌, IfErr, IfOk, IfSome, IsErrOf, Ok as OkValue, OnOk, length, string_bytes};
ghost use Rattle.hs_folders.specs.Causes.{Rose};
ghost use Rattle.hotsync_looks.specs.LookTexts as texts;
ghost use Rattle.hotsync_looks.specs.LookTexts.{IsDatabaseText, IsTextOf, LooksAtEntries, Refuses, RefusesDatabase, look_text as text_of_look};
ghost use Rattle.cmd_status.specs.Sources.{source_limit};
ghost use Rattle.hotsync_looks.specs.ExportTexts.{form_export};
ghost use Rattle.hotsync_looks.specs.Looks.{IsLook, IsLookRefusal, IsTextIn, SourceShows};
ghost use Rattle.cmd_status.specs.Opening.{Opens, OpensAtMost};
ghost use Rattle.cmd_status.specs.Told.{sink_told, source_told};

use crate::bad_file::fault_status;
use crate::exported::exported_text;
use crate::imported::imported_file;
use crate::traced::{picture_text, verdict_text};
use cmd_status::{FileSide, Status, print_refusal, print_text, read_source};
use file_text::{counted_text, full_text, show_text};
use hs_folders::{Sink, Source};
use palm_records::ExportFault;
use pdb_files::{count_entries, read_database};
use pdb_values::{Database, DbName};
use run_words::{Export, ExportForm, ImportForm, Look, LookWords};
use std::alloc::Global;

/// Reads a file, and prints what the look wants of it on `out`, or why there is nothing on `err`.
pub fn look_at<S: Source, O: Sink, E: Sink>(
    alloc: Global,
    words: LookWords<'_>,
    source: &mut S,
    out: &mut O,
    err: &mut E,
) -> Status
    ensures { IsLook words.entry.look words.entry.file.now
        (source_told S.Source source.old) (source_told S.Source source.new)
        (sink_told O.Sink out.old) (sink_told O.Sink out.new)
        (sink_told E.Sink err.old) (sink_told E.Sink err.new) result }
{
    match look_into(alloc, words.look, words.file, source) {
        Ok(text) => print_text(&text, out),
        Err(refusal) => print_refusal(alloc, refusal, err),
    }
}

// The text of a file.
#[tactic(auto, using(crate::proofs::LookLaws::text_told, crate::proofs::LookLaws::refusal_told, crate::proofs::LookLaws::refusal_known, crate::proofs::LookLaws::refusal_blames))]
fn look_into<S: Source>(
    alloc: Global,
    look: Look,
    file: &str,
    source: &mut S,
) -> Result<Vec<u8>, Status>
    ensures text { IfOk result (λ text. IsTextIn look (S.left source.old) text.items) }
    ensures shown { IfErr result (λ refusal. IfSome (S.left source.old)
        (SourceShows look file.now refusal)) }
    ensures failed { IsErrOf result Status.SourceRead → Rose (S.faults source.old)
        (S.faults source.new) }
    ensures refusal { IfErr result IsLookRefusal }

    ensures opened { OnOk result (Opens file.now (S.paths source.old) (S.paths source.new)) }
    ensures path { OpensAtMost file.now (S.paths source.old) (S.paths source.new) }
    ensures count { S.faults source.old ≤ S.faults source.new }
{
    let bytes = read_source(alloc, source, file)?;
    let text = bytes_text(alloc, look, file, &bytes)?;
    Ok(text)
}

// What the look prints of the bytes of a file.
fn bytes_text(alloc: Global, look: Look, file: &str, bytes: &[u8]) -> Result<Vec<u8>, Status>
    requires { length bytes.now ≤ source_limit }
    ensures text { IfOk result (λ text. IsTextOf look bytes.now text.items) }
    ensures refused { IfErr result (λ refusal. Refuses look file.now bytes.now refusal) }
{
    match look {
        Look::Verify => Ok(verdict_text(alloc, bytes)?.into_bytes()),
        Look::Picture => Ok(picture_text(alloc, bytes)?.into_bytes()),
        Look::Import(ImportForm::Text) => imported_file(alloc, bytes),
        Look::Check => Ok(count_text(alloc, file, bytes)?.into_bytes()),
        Look::Show | Look::Records | Look::Export(_) => {
            Ok(read_text(alloc, look, file, bytes)?.into_bytes())
        }
    }
}

// The line that counts the entries of the database in these bytes of a file.
fn count_text(alloc: Global, file: &str, bytes: &[u8]) -> Result<String, Status>
    ensures text { IfOk result (λ text. IsDatabaseText Look.Check bytes.now (string_bytes text)) }
    ensures refused { IfErr result (λ refusal.
        RefusesDatabase Look.Check file.now bytes.now refusal) }
{
    match count_entries(alloc, bytes) {
        Ok(count) => Ok(counted_text(alloc, count)?),
        Err(fault) => Err(fault_status(alloc, FileSide::Source, file, fault)),
    }
}

// The text of the entries of the database in these bytes of a file.
fn read_text(alloc: Global, look: Look, file: &str, bytes: &[u8]) -> Result<String, Status>
    requires short { length bytes.now ≤ source_limit }
    requires look { LooksAtEntries look }
    ensures text { IfOk result (λ text. IsDatabaseText look bytes.now (string_bytes text)) }
    ensures refused { IfErr result (λ refusal.
        RefusesDatabase look file.now bytes.now refusal) }
{
    let database = match read_database(alloc, bytes) {
        Ok(database) => database,
        Err(fault) => return Err(fault_status(alloc, FileSide::Source, file, fault)),
    };
    database_text(alloc, look, &database)
}

// What the look wants of the entries of a database.
fn database_text(alloc: Global, look: Look, database: &Database) -> Result<String, Status>
    requires { LooksAtEntries look }
    ensures text { IfOk result (λ text. text_of_look look database.now
        ≡ OkValue (string_bytes text)) }
    ensures refused { IfErr result (λ refusal. texts.NoTextSays look database.now refusal) }
{
    let text = match look {
        Look::Show => show_text(alloc, database)?,
        Look::Records => full_text(alloc, database)?,
        Look::Export(export) => form_text(alloc, export, database)?,
        Look::Check | Look::Import(_) | Look::Verify | Look::Picture => unreachable!(),
    };
    Ok(text)
}

// The text of a database in the form that is wanted.
fn form_text(alloc: Global, export: Export, database: &Database) -> Result<String, Status>
    ensures text { IfOk result (λ text. form_export export export.form database.now
        ≡ OkValue (string_bytes text)) }
    ensures refused { IfErr result (λ refusal.
        texts.NoTextSays (Look.Export export) database.now refusal) }
{
    match exported_text(alloc, export, database) {
        Ok(text) => Ok(text),
        Err(fault) => Err(export_status(&database.head().name, export.form, fault)),
    }
}

// What it makes of the call that there is no text of the database of this name.
fn export_status(name: &DbName, form: ExportForm, fault: ExportFault) -> Status
    ensures { result ≡ texts.export_status name.now form fault }
{
    match fault {
        ExportFault::CannotExport => Status::CannotExport {
            name: name.copy(),
            form,
        },
        ExportFault::BadRecord { index, place } => Status::BadRecord {
            index: index as u64,
            place: place as u64,
        },
        ExportFault::NoMemory => Status::NoMemory,
    }
}
