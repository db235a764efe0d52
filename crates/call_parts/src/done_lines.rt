// The lines of a call that was done, and how they are printed.
ghost use Rattle.std.specs.Prelude.{◌≡◌, ◌≢◌, ◌⊎◌, ◌≤◌, ◌++◌, IfOk, OnOk, string_bytes};
ghost use Rattle.cmd_status.specs.Printed.{IsPrinted, IsPrintedStatus};
ghost use Rattle.cmd_status.specs.Told.{sink_told};
ghost use Rattle.call_parts.specs.DoneLines.{count_text, counts_text as text_of_counts, database_line as line_of_database, did_text as text_of_did, done_lines as lines_of_done, mode_word as word_of_mode, skip_word};

use cmd_status::{Status, print_no_memory, print_refusal, print_text};
use hs_folders::Sink;
use session_parts::{Counts, DbReport, Did, FiledCounts, Skip};
use std::alloc::{AllocError, Global};
use std::fmt::Write;

/// Prints the lines of a status: those of the databases and `ended`, or that of a refusal.
pub fn print_status<O: Sink>(
    alloc: Global,
    status: Status,
    databases: &[DbReport],
    out: &mut O,
) -> Status
    requires { status ≢ Status.OutWrite }
    ensures status { IsPrintedStatus status result }
    ensures printed { IsPrinted (λ text. text ≡ lines_of_done databases.now)
        (sink_told O.Sink out.old) (sink_told O.Sink out.new) result }
    ensures count { O.faults out.old ≤ O.faults out.new }
{
    match status {
        Status::Done => print_done(alloc, databases, out),
        refusal => print_refusal(alloc, refusal, out),
    }
}

// Prints a line each database and then `ended`. A failing sink makes the status `OutWrite`.
#[tactic(auto, using(cmd_status::proofs::PrintedLaws::memory_printed))]
fn print_done<O: Sink>(alloc: Global, databases: &[DbReport], out: &mut O) -> Status
    ensures status { (result ≡ Status.Done) ⊎ (result ≡ Status.OutWrite) ⊎
        (result ≡ Status.NoMemory) }
    ensures printed { IsPrinted (λ text. text ≡ lines_of_done databases.now)
        (sink_told O.Sink out.old) (sink_told O.Sink out.new) result }
    ensures count { O.faults out.old ≤ O.faults out.new }
{
    match done_lines(alloc, databases) {
        Ok(lines) => print_text(lines.as_bytes(), out),
        Err(AllocError) => print_no_memory(out),
    }
}

// The lines of a run that was done.
fn done_lines(alloc: Global, databases: &[DbReport]) -> Result<String, AllocError>
    ensures { IfOk result (λ lines. string_bytes lines ≡ lines_of_done databases.now) }
{
    let mut lines = String::new(alloc);
    for report in databases {
        let line = database_line(alloc, report)?;
        lines.push_str(line.as_str())?;
    }
    lines.push_str("ended\n")?;
    Ok(lines)
}

// The line of one database.
#[tactic(auto, unfolding(crate::specs::DoneLines::database_line))]
pub(crate) fn database_line(alloc: Global, report: &DbReport) -> Result<String, AllocError>
    ensures { IfOk result (λ line. string_bytes line
        ≡ line_of_database report.now.name report.now.did) }
{
    let mut line = report.name.file_stem(alloc)?;
    let did = did_text(alloc, report.did)?;
    line.push_str(did.as_str())?;
    line.push_str("\n")?;
    Ok(line)
}

// What was done with one database.
fn did_text(alloc: Global, did: Did) -> Result<String, AllocError>
    ensures { IfOk result (λ text. string_bytes text ≡ text_of_did did) }
{
    match did {
        Did::Synced(counts) => counts_text(alloc, counts),
        Did::Skipped(reason) => skip_text(alloc, reason),
        Did::Installed(entries) => installed_text(alloc, entries),
        Did::BackedUp(entries) => backed_up_text(alloc, entries),
        Did::Filed(counts) => filed_text(alloc, counts),
    }
}

// How a database was synchronised.
#[tactic(auto, unfolding(crate::specs::DoneLines::counts_text))]
fn counts_text(alloc: Global, counts: Counts) -> Result<String, AllocError>
    ensures { IfOk result (λ text. string_bytes text ≡ text_of_counts counts) }
{
    let mut text = String::from_str(alloc, mode_word(counts.fast))?;
    push_count(&mut text, " read ", counts.read)?;
    push_count(&mut text, " replaced ", counts.replaced)?;
    push_count(&mut text, " added ", counts.added)?;
    push_count(&mut text, " purged ", counts.purged)?;
    push_count(&mut text, " archived ", counts.archived)?;
    push_count(&mut text, " rows ", counts.rows)?;
    Ok(text)
}

// Why a database was left alone.
fn skip_text(alloc: Global, reason: Skip) -> Result<String, AllocError>
    ensures { IfOk result (λ text. string_bytes text ≡ text_of_did (Did.Skipped reason)) }
{
    let mut text = String::from_str(alloc, " skipped ")?;
    text.push_str(word_of_skip(reason))?;
    Ok(text)
}

// How many entries a handheld has of a file.
fn installed_text(alloc: Global, entries: u32) -> Result<String, AllocError>
    ensures { IfOk result (λ text. string_bytes text ≡ text_of_did (Did.Installed entries)) }
{
    let mut text = String::new(alloc);
    push_count(&mut text, " installed entries ", entries)?;
    Ok(text)
}

// How many entries the file of a backup has.
fn backed_up_text(alloc: Global, entries: u32) -> Result<String, AllocError>
    ensures { IfOk result (λ text. string_bytes text ≡ text_of_did (Did.BackedUp entries)) }
{
    let mut text = String::new(alloc);
    push_count(&mut text, " backed up entries ", entries)?;
    Ok(text)
}

// How many categories are used, and how many rows moved.
fn filed_text(alloc: Global, counts: FiledCounts) -> Result<String, AllocError>
    ensures { IfOk result (λ text. string_bytes text ≡ text_of_did (Did.Filed counts)) }
{
    let mut text = String::new(alloc);
    push_count(&mut text, " categories ", counts.used)?;
    push_count(&mut text, " moved ", counts.moved)?;
    Ok(text)
}

// The word that stands for the reason.
fn word_of_skip(reason: Skip) -> &'static str
    ensures { result.now ≡ skip_word reason }
{
    match reason {
        Skip::Nothing => "nothing",
        Skip::Resource => "resource",
        Skip::ReadOnly => "read-only",
        Skip::Stream => "stream",
        Skip::Differs => "differs",
        Skip::Missing => "missing",
        Skip::Blocks => "blocks",
    }
}

// How the handheld's database was read.
fn mode_word(fast: bool) -> &'static str
    ensures { result.now ≡ word_of_mode fast }
{
    if fast { " fast" } else { " slow" }
}

// Appends a word and a number.
fn push_count(line: &mut String, word: &str, count: u32) -> Result<(), AllocError>
    ensures { OnOk result (string_bytes line.new
        ≡ string_bytes line.old ++ count_text word.now count) }
{
    line.push_str(word)?;
    write!(line, "{count}")?;
    Ok(())
}
