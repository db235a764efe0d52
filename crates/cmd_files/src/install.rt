// An install: what comes before its session, the session, and what it prints.
ghost use Rattle.std.specs.Prelude.{◌≡◌, ◌≢◌, [], ◌∷◌, None, true};
ghost use Rattle.handheld_files.specs.Openings.{AreKept, Stands, opened_device};
ghost use Rattle.palm_device.specs.Bounds.{IsBounded, IsBoundedDatabase};
ghost use Rattle.run_words.specs.Views.{between_view};
ghost use Rattle.cmd_status.specs.Told.{sink_told};
ghost use Rattle.call_parts.specs.SessionCalls.{IsSessionCall, MayHaveSession};
ghost use Rattle.call_parts.specs.OfCalls.{OfCall, OfRun, OfSides};
ghost use Rattle.install_backup.specs.InstallActs.{install_mark as mark_of};
ghost use Rattle.cmd_files.specs.Installs.{install_command};
ghost use Rattle.cmd_files.specs.Loads.{IsLoadTalk};
ghost use Rattle.call_parts.specs.Refusals.{BlamesSource};
ghost use Rattle.call_parts.specs.Traces.{TracesReport};

use crate::load_talk::load_talk;
use call_parts::{Answer, open_handheld, open_trace};
use cmd_status::Status;
use handheld_store::Store;
use hotsync_looks::read_install_file;
use hs_folders::{Folder, Sink, Source};
use install_backup::install_mark;
use line_script::Script;
use pdb_values::Database;
use run_clap::BetweenWords;
use std::alloc::Global;

/// Installs the database of a file on a handheld, and prints what was done. The desktop's folder is handed back.
pub fn install_file<H: Folder, D: Folder, S: Source, T: Sink, O: Sink>(
    alloc: Global,
    words: &BetweenWords<'_>,
    device: H,
    desk: D,
    source: &mut S,
    trace: &mut T,
    out: &mut O,
) -> Answer<H, D>
    ensures install { OfCall (IsSessionCall (install_command (between_view words.now)))
        H.Folder D.Folder S.Source T.Sink O.Sink
        device desk source.old trace.old out.old
        result source.new trace.new out.new }
    ensures source_first { BlamesSource result.status → result.device ≡ device }
    ensures desk { result.desk ≡ desk }
    ensures trace { words.now.trace ≡ None → trace.new ≡ trace.old }
{
    let answer = judged_install(alloc, words, device, desk, source, trace);
    answer.printed(alloc, out)
}

// Judges the file and the handheld's folder, in this order, opens the trace, and installs.
fn judged_install<H: Folder, D: Folder, S: Source, T: Sink>(
    alloc: Global,
    words: &BetweenWords<'_>,
    device: H,
    desk: D,
    source: &mut S,
    trace: &mut T,
) -> Answer<H, D>
    ensures ran { OfRun (MayHaveSession (install_command (between_view words.now)))
        H.Folder D.Folder S.Source T.Sink device desk source.old trace.old
        result source.new trace.new }
    ensures unprinted { result.status ≢ Status.OutWrite }
    ensures source_first { BlamesSource result.status → result.device ≡ device }
    ensures desk { result.desk ≡ desk }
    ensures trace { words.now.trace ≡ None → trace.new ≡ trace.old }
{
    let database = match read_install_file(alloc, source, words.other) {
        Ok(database) => database,
        Err(refusal) => return Answer::not_started(alloc, refusal, device, desk),
    };
    let store = match open_handheld(alloc, device, words.handheld) {
        Ok(store) => store,
        Err((refusal, device)) => return Answer::not_started(alloc, refusal, device, desk),
    };
    match open_trace(trace, words.trace) {
        Ok(()) => traced_install(alloc, words, store, desk, database, trace),
        Err(refusal) => Answer::not_started(alloc, refusal, store.into_folder(), desk),
    }
}

// Installs over a line that loses nothing, and writes the trace of the session.
fn traced_install<H: Folder, D: Folder, T: Sink>(
    alloc: Global,
    words: &BetweenWords<'_>,
    store: Store<H>,
    desk: D,
    database: Database,
    trace: &mut T,
) -> Answer<H, D>
    requires sound { store.sound ≡ true }
    requires stands { Stands (H.contents store.folder) store.databases store.user }
    requires kept { AreKept store.databases }
    requires proper { IsBounded (opened_device store.databases store.user) }
    requires bounded { IsBoundedDatabase database }
    ensures talk { OfSides (IsLoadTalk [] (mark_of database)
        (opened_device store.databases store.user) (database ∷ []))
        H.Folder D.Folder store.folder desk result }
    ensures unprinted { result.status ≢ Status.OutWrite }
    ensures traced { TracesReport (between_view words.now).trace result.report
        (sink_told T.Sink trace.old) (sink_told T.Sink trace.new) result.status }
    ensures desk { result.desk ≡ desk }
    ensures trace { words.now.trace ≡ None → trace.new ≡ trace.old }
{
    let script = Script::empty(alloc);
    let mark = install_mark(&database);
    let databases = [database];
    let answer = load_talk(alloc, store, desk, script, mark, &databases);
    answer.traced(alloc, words.trace, trace)
}
