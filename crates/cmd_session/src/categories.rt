// Categories: what comes before their session, the session, and what it prints.
ghost use Rattle.std.specs.Prelude.{◌≡◌, ◌≢◌, None, true};
ghost use Rattle.category_mirror.specs.Sides.{filing_of};
ghost use Rattle.desk_store.specs.Bounds.{AreBounded};
ghost use Rattle.desk_store.specs.Desks.{IsDesk};
ghost use Rattle.handheld_files.specs.Openings.{AreKept, Stands, opened_device};
ghost use Rattle.palm_device.specs.Bounds.{IsBounded};
ghost use Rattle.call_parts.specs.SessionCalls.{IsSessionCall, MayHaveSession};
ghost use Rattle.call_parts.specs.OfCalls.{OfCall, OfRun, OfSides};
ghost use Rattle.cmd_session.specs.Filings.{IsFilingTalk, categories_command};
ghost use Rattle.call_parts.specs.Refusals.{BlamesHandheld, BlamesSource};
ghost use Rattle.call_parts.specs.Traces.{TracesReport};
ghost use Rattle.cmd_status.specs.Told.{sink_told};
ghost use Rattle.run_words.specs.Views.{between_view};

use crate::categories_talk::categories_talk;
use call_parts::{Answer, SessionEnd, open_desktop, open_handheld, open_trace, script_of};
use cmd_status::Status;
use desk_store::Desk;
use handheld_store::Store;
use hs_folders::{Folder, Sink, Source};
use line_script::Script;
use run_clap::BetweenWords;
use std::alloc::Global;

/// Brings the categories of a handheld and of a desktop together, and prints what was done.
pub fn file_categories<H: Folder, D: Folder, S: Source, T: Sink, O: Sink>(
    alloc: Global,
    words: &BetweenWords<'_>,
    device: H,
    desk: D,
    source: &mut S,
    trace: &mut T,
    out: &mut O,
) -> Answer<H, D>
    ensures categories { OfCall (IsSessionCall (categories_command (between_view words.now)))
        H.Folder D.Folder S.Source T.Sink O.Sink
        device desk source.old trace.old out.old
        result source.new trace.new out.new }
    ensures source_first { BlamesSource result.status
        → (result.device ≡ device) × (result.desk ≡ desk) }
    ensures handheld_first { result.report.end ≡ SessionEnd.NotStarted
        → BlamesHandheld result.status → result.desk ≡ desk }
    ensures source { words.now.script ≡ None → source.new ≡ source.old }
    ensures trace { words.now.trace ≡ None → trace.new ≡ trace.old }
{
    let answer = judged_categories(alloc, words, device, desk, source, trace);
    answer.printed(alloc, out)
}

// Judges the script, the handheld's folder and the desktop's, in this order, opens the trace, and has the session.
fn judged_categories<H: Folder, D: Folder, S: Source, T: Sink>(
    alloc: Global,
    words: &BetweenWords<'_>,
    device: H,
    desk: D,
    source: &mut S,
    trace: &mut T,
) -> Answer<H, D>
    ensures ran { OfRun (MayHaveSession (categories_command (between_view words.now)))
        H.Folder D.Folder S.Source T.Sink device desk source.old trace.old
        result source.new trace.new }
    ensures unprinted { result.status ≢ Status.OutWrite }
    ensures source_first { BlamesSource result.status
        → (result.device ≡ device) × (result.desk ≡ desk) }
    ensures handheld_first { result.report.end ≡ SessionEnd.NotStarted
        → BlamesHandheld result.status → result.desk ≡ desk }
    ensures source { words.now.script ≡ None → source.new ≡ source.old }
    ensures trace { words.now.trace ≡ None → trace.new ≡ trace.old }
{
    let script = match script_of(alloc, source, words.script) {
        Ok(script) => script,
        Err(refusal) => return Answer::not_started(alloc, refusal, device, desk),
    };
    let store = match open_handheld(alloc, device, words.handheld) {
        Ok(store) => store,
        Err((refusal, device)) => return Answer::not_started(alloc, refusal, device, desk),
    };
    let desk = match open_desktop(alloc, desk, words.other) {
        Ok(desk) => desk,
        Err((refusal, desk)) => {
            return Answer::not_started(alloc, refusal, store.into_folder(), desk);
        }
    };
    match open_trace(trace, words.trace) {
        Ok(()) => traced_categories(alloc, words, store, desk, script, trace),
        Err(refusal) => {
            Answer::not_started(alloc, refusal, store.into_folder(), desk.into_folder())
        }
    }
}

// Has the session, and writes its trace.
fn traced_categories<H: Folder, D: Folder, T: Sink>(
    alloc: Global,
    words: &BetweenWords<'_>,
    store: Store<H>,
    desk: Desk<D>,
    script: Script,
    trace: &mut T,
) -> Answer<H, D>
    requires sound { store.sound ≡ true }
    requires stands { Stands (H.contents store.folder) store.databases store.user }
    requires kept { AreKept store.databases }
    requires proper { IsBounded (opened_device store.databases store.user) }
    requires desktop { IsDesk (D.contents desk.folder) desk.slots }
    requires bounded { AreBounded desk.slots }
    ensures talk { OfSides (IsFilingTalk script
        (filing_of (opened_device store.databases store.user) desk.slots))
        H.Folder D.Folder store.folder desk.folder result }
    ensures unprinted { result.status ≢ Status.OutWrite }
    ensures traced { TracesReport (between_view words.now).trace result.report
        (sink_told T.Sink trace.old) (sink_told T.Sink trace.new) result.status }
    ensures trace { words.now.trace ≡ None → trace.new ≡ trace.old }
{
    let answer = categories_talk(alloc, store, desk, script);
    answer.traced(alloc, words.trace, trace)
}
