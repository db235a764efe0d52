// The lines of a session that was to touch some databases alone.
ghost use Rattle.std.specs.Prelude.{◌≡◌, ◌≢◌, ◌⊎◌, ◌≤◌, ◌++◌, IfOk, OnOk, count_by, not, string_bytes};
ghost use Rattle.cmd_status.specs.Printed.{IsPrinted, IsPrintedStatus};
ghost use Rattle.cmd_status.specs.Told.{sink_told};
ghost use Rattle.call_parts.specs.TouchedLines.{is_touched as is_touched_by, others_line, touched_lines as lines_of_touched};

use crate::done_lines::database_line;
use cmd_status::{Status, print_no_memory, print_refusal, print_text};
use hs_folders::Sink;
use session_parts::{DbReport, Did, Skip};
use std::alloc::{AllocError, Global};
use std::fmt::Write;

/// Prints the lines of a status: those of the databases that were to be touched, how many others there are, and `ended`; or
/// that of a refusal.
pub fn print_touched<O: Sink>(
    alloc: Global,
    status: Status,
    databases: &[DbReport],
    out: &mut O,
) -> Status
    requires { status ≢ Status.OutWrite }
    ensures status { IsPrintedStatus status result }
    ensures printed { IsPrinted (λ text. text ≡ lines_of_touched databases.now)
        (sink_told O.Sink out.old) (sink_told O.Sink out.new) result }
    ensures count { O.faults out.old ≤ O.faults out.new }
{
    match status {
        Status::Done => print_ended(alloc, databases, out),
        refusal => print_refusal(alloc, refusal, out),
    }
}

// Prints what was done. A failing sink makes the status `OutWrite`.
#[tactic(auto, using(cmd_status::proofs::PrintedLaws::memory_printed))]
fn print_ended<O: Sink>(alloc: Global, databases: &[DbReport], out: &mut O) -> Status
    ensures status { (result ≡ Status.Done) ⊎ (result ≡ Status.OutWrite) ⊎
        (result ≡ Status.NoMemory) }
    ensures printed { IsPrinted (λ text. text ≡ lines_of_touched databases.now)
        (sink_told O.Sink out.old) (sink_told O.Sink out.new) result }
    ensures count { O.faults out.old ≤ O.faults out.new }
{
    match touched_lines(alloc, databases) {
        Ok(lines) => print_text(lines.as_bytes(), out),
        Err(AllocError) => print_no_memory(out),
    }
}

// The lines of a session that was done.
fn touched_lines(alloc: Global, databases: &[DbReport]) -> Result<String, AllocError>
    ensures { IfOk result (λ lines. string_bytes lines ≡ lines_of_touched databases.now) }
{
    let mut lines = String::new(alloc);
    for report in databases {
        if is_touched(report.did) {
            let line = database_line(alloc, report)?;
            lines.push_str(line.as_str())?;
        }
    }
    push_others(&mut lines, count_others(databases))?;
    lines.push_str("ended\n")?;
    Ok(lines)
}

// Whether a database was to be touched.
fn is_touched(did: Did) -> bool
    ensures { result ≡ is_touched_by did }
{
    !matches!(did, Did::Skipped(Skip::Nothing))
}

// How many databases were not.
fn count_others(databases: &[DbReport]) -> usize
    ensures { result ≡ count_by (λ report. not (is_touched_by report.did)) databases.now }
{
    databases
        .iter()
        .filter(|report| !is_touched(report.did))
        .count()
}

// Appends how many others there are, where there are some.
fn push_others(lines: &mut String, count: usize) -> Result<(), AllocError>
    ensures { OnOk result (string_bytes lines.new
        ≡ string_bytes lines.old ++ others_line count) }
{
    if count > 0 {
        write!(lines, "{count} others skipped nothing\n")?;
    }
    Ok(())
}
