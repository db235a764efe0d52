// A backup: what comes before its session, the session, and what it prints.
ghost use Rattle.std.specs.Prelude.{◌≡◌, ◌≢◌, None, true};
ghost use Rattle.handheld_files.specs.Openings.{AreKept, Stands, opened_device};
ghost use Rattle.palm_device.specs.Bounds.{IsBounded};
ghost use Rattle.run_words.specs.Views.{between_view};
ghost use Rattle.cmd_status.specs.Told.{sink_told};
ghost use Rattle.cmd_files.specs.Backups.{IsBackupTalk, backup_command};
ghost use Rattle.call_parts.specs.SessionCalls.{IsSessionCall, MayHaveSession};
ghost use Rattle.call_parts.specs.OfCalls.{OfCall, OfRun, OfSides};
ghost use Rattle.call_parts.specs.Refusals.{BlamesHandheld, BlamesSource};
ghost use Rattle.call_parts.specs.Traces.{TracesReport};

use crate::backup_talk::backup_talk;
use call_parts::{Answer, SessionEnd, open_files, open_handheld, open_trace, script_of};
use cmd_status::Status;
use handheld_store::Store;
use hs_folders::{Folder, Sink, Source};
use line_script::Script;
use run_clap::BetweenWords;
use std::alloc::Global;

/// Backs the databases of a handheld up into the files of a folder, and prints what was done.
pub fn backup_folder<H: Folder, D: Folder, S: Source, T: Sink, O: Sink>(
    alloc: Global,
    words: &BetweenWords<'_>,
    device: H,
    desk: D,
    source: &mut S,
    trace: &mut T,
    out: &mut O,
) -> Answer<H, D>
    ensures backup { OfCall (IsSessionCall (backup_command (between_view words.now)))
        H.Folder D.Folder S.Source T.Sink O.Sink
        device desk source.old trace.old out.old
        result source.new trace.new out.new }
    ensures source_first { BlamesSource result.status
        → (result.device ≡ device) × (result.desk ≡ desk) }
    ensures handheld_first { result.report.end ≡ SessionEnd.NotStarted
        → BlamesHandheld result.status → result.desk ≡ desk }
    ensures source { words.now.script ≡ None → source.new ≡ source.old }
    ensures trace { words.now.trace ≡ None → trace.new ≡ trace.old }
{
    let answer = judged_backup(alloc, words, device, desk, source, trace);
    answer.printed(alloc, out)
}

// Judges the script, the handheld's folder and that for the files, in this order, opens the trace, and backs up.
fn judged_backup<H: Folder, D: Folder, S: Source, T: Sink>(
    alloc: Global,
    words: &BetweenWords<'_>,
    device: H,
    desk: D,
    source: &mut S,
    trace: &mut T,
) -> Answer<H, D>
    ensures ran { OfRun (MayHaveSession (backup_command (between_view words.now)))
        H.Folder D.Folder S.Source T.Sink device desk source.old trace.old
        result source.new trace.new }
    ensures unprinted { result.status ≢ Status.OutWrite }
    ensures source_first { BlamesSource result.status
        → (result.device ≡ device) × (result.desk ≡ desk) }
    ensures handheld_first { result.report.end ≡ SessionEnd.NotStarted
        → BlamesHandheld result.status → result.desk ≡ desk }
    ensures source { words.now.script ≡ None → source.new ≡ source.old }
    ensures trace { words.now.trace ≡ None → trace.new ≡ trace.old }
{
    let script = match script_of(alloc, source, words.script) {
        Ok(script) => script,
        Err(refusal) => return Answer::not_started(alloc, refusal, device, desk),
    };
    let store = match open_handheld(alloc, device, words.handheld) {
        Ok(store) => store,
        Err((refusal, device)) => return Answer::not_started(alloc, refusal, device, desk),
    };
    let files = match open_files(alloc, desk, words.other) {
        Ok(files) => files,
        Err((refusal, desk)) => {
            return Answer::not_started(alloc, refusal, store.into_folder(), desk);
        }
    };
    match open_trace(trace, words.trace) {
        Ok(()) => traced_backup(alloc, words, store, files, script, trace),
        Err(refusal) => Answer::not_started(alloc, refusal, store.into_folder(), files),
    }
}

// Backs up, and writes the trace of the session.
fn traced_backup<H: Folder, D: Folder, T: Sink>(
    alloc: Global,
    words: &BetweenWords<'_>,
    store: Store<H>,
    files: D,
    script: Script,
    trace: &mut T,
) -> Answer<H, D>
    requires sound { store.sound ≡ true }
    requires stands { Stands (H.contents store.folder) store.databases store.user }
    requires kept { AreKept store.databases }
    requires proper { IsBounded (opened_device store.databases store.user) }
    ensures talk { OfSides (IsBackupTalk script (opened_device store.databases store.user))
        H.Folder D.Folder store.folder files result }
    ensures unprinted { result.status ≢ Status.OutWrite }
    ensures traced { TracesReport (between_view words.now).trace result.report
        (sink_told T.Sink trace.old) (sink_told T.Sink trace.new) result.status }
    ensures trace { words.now.trace ≡ None → trace.new ≡ trace.old }
{
    let answer = backup_talk(alloc, store, files, script);
    answer.traced(alloc, words.trace, trace)
}
