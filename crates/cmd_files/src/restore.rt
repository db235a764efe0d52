// A restore: what comes before its session, the session, and what it prints.
ghost use Rattle.std.specs.Prelude.{◌≡◌, ◌≢◌, None, true};
ghost use Rattle.std.specs.List.{AllByRecursion};
ghost use Rattle.handheld_files.specs.Openings.{AreKept, Stands, opened_device};
ghost use Rattle.palm_device.specs.Bounds.{IsBounded, IsBoundedDatabase};
ghost use Rattle.pdb_values.specs.NamedDatabases.{NamesRise};
ghost use Rattle.run_words.specs.Views.{between_view};
ghost use Rattle.cmd_status.specs.Told.{sink_told};
ghost use Rattle.call_parts.specs.SessionCalls.{IsSessionCall, MayHaveSession};
ghost use Rattle.call_parts.specs.OfCalls.{OfCall, OfRun, OfSides};
ghost use Rattle.call_parts.specs.Refusals.{BlamesHandheld, BlamesSource};
ghost use Rattle.install_backup.specs.InstallActs.{restore_mark as mark_of};
ghost use Rattle.cmd_files.specs.Loads.{IsLoadTalk};
ghost use Rattle.cmd_files.specs.Restores.{restore_command};
ghost use Rattle.call_parts.specs.Traces.{TracesReport};

use crate::backups::{Backups, open_backups};
use crate::load_talk::load_talk;
use call_parts::{Answer, SessionEnd, open_handheld, open_trace, script_of};
use cmd_status::Status;
use handheld_store::Store;
use hs_folders::{Folder, Sink, Source};
use install_backup::restore_mark;
use line_script::Script;
use pdb_values::Database;
use run_clap::BetweenWords;
use std::alloc::Global;

/// Restores the databases of the files of a folder on a handheld, and prints what was done. The folder is only read.
pub fn restore_folder<H: Folder, D: Folder, S: Source, T: Sink, O: Sink>(
    alloc: Global,
    words: &BetweenWords<'_>,
    device: H,
    desk: D,
    source: &mut S,
    trace: &mut T,
    out: &mut O,
) -> Answer<H, D>
    ensures restore { OfCall (IsSessionCall (restore_command (between_view words.now)))
        H.Folder D.Folder S.Source T.Sink O.Sink
        device desk source.old trace.old out.old
        result source.new trace.new out.new }
    ensures source_first { BlamesSource result.status
        → (result.device ≡ device) × (result.desk ≡ desk) }
    ensures handheld_first { result.report.end ≡ SessionEnd.NotStarted
        → BlamesHandheld result.status → result.desk ≡ desk }
    ensures source { words.now.script ≡ None → source.new ≡ source.old }
    ensures trace { words.now.trace ≡ None → trace.new ≡ trace.old }
{
    let answer = judged_restore(alloc, words, device, desk, source, trace);
    answer.printed(alloc, out)
}

// Judges the script, the handheld's folder and that of the backups, in this order, opens the trace, and restores.
fn judged_restore<H: Folder, D: Folder, S: Source, T: Sink>(
    alloc: Global,
    words: &BetweenWords<'_>,
    device: H,
    desk: D,
    source: &mut S,
    trace: &mut T,
) -> Answer<H, D>
    ensures ran { OfRun (MayHaveSession (restore_command (between_view words.now)))
        H.Folder D.Folder S.Source T.Sink device desk source.old trace.old
        result source.new trace.new }
    ensures unprinted { result.status ≢ Status.OutWrite }
    ensures source_first { BlamesSource result.status
        → (result.device ≡ device) × (result.desk ≡ desk) }
    ensures handheld_first { result.report.end ≡ SessionEnd.NotStarted
        → BlamesHandheld result.status → result.desk ≡ desk }
    ensures source { words.now.script ≡ None → source.new ≡ source.old }
    ensures trace { words.now.trace ≡ None → trace.new ≡ trace.old }
{
    let script = match script_of(alloc, source, words.script) {
        Ok(script) => script,
        Err(refusal) => return Answer::not_started(alloc, refusal, device, desk),
    };
    let store = match open_handheld(alloc, device, words.handheld) {
        Ok(store) => store,
        Err((refusal, device)) => return Answer::not_started(alloc, refusal, device, desk),
    };
    let backups = match open_backups(alloc, desk, words.other) {
        Ok(backups) => backups,
        Err((refusal, desk)) => {
            return Answer::not_started(alloc, refusal, store.into_folder(), desk);
        }
    };
    match open_trace(trace, words.trace) {
        Ok(()) => traced_restore(alloc, words, store, backups, script, trace),
        Err(refusal) => Answer::not_started(alloc, refusal, store.into_folder(), backups.folder),
    }
}

// Restores, and writes the trace of the session.
fn traced_restore<H: Folder, D: Folder, T: Sink>(
    alloc: Global,
    words: &BetweenWords<'_>,
    store: Store<H>,
    backups: Backups<D>,
    script: Script,
    trace: &mut T,
) -> Answer<H, D>
    requires sound { store.sound ≡ true }
    requires stands { Stands (H.contents store.folder) store.databases store.user }
    requires kept { AreKept store.databases }
    requires proper { IsBounded (opened_device store.databases store.user) }
    requires order { NamesRise backups.databases.items }
    requires bounded { AllByRecursion IsBoundedDatabase backups.databases.items }
    ensures talk { OfSides (IsLoadTalk script (mark_of backups.databases.items)
        (opened_device store.databases store.user) backups.databases.items)
        H.Folder D.Folder store.folder backups.folder result }
    ensures unprinted { result.status ≢ Status.OutWrite }
    ensures traced { TracesReport (between_view words.now).trace result.report
        (sink_told T.Sink trace.old) (sink_told T.Sink trace.new) result.status }
    ensures desk { result.desk ≡ backups.folder }
    ensures trace { words.now.trace ≡ None → trace.new ≡ trace.old }
{
    let Backups { databases, folder } = backups;
    let all: &[Database] = &databases;
    let answer = load_talk(alloc, store, folder, script, restore_mark(all), all);
    answer.traced(alloc, words.trace, trace)
}
