// A dry run: a run over copies of both folders in memory. The folders themselves are only read.
ghost use Rattle.std.specs.Prelude.{◌≡◌, ◌≢◌, ◌⊎◌, ◌≤◌, None, IfErr, IfOk, OnOk};
ghost use Rattle.folder_copies.specs.declared.copied_folder.CopiedFolder.{CopiedFolder as Copy};
ghost use Rattle.folder_copies.specs.Copies.{IsCopy, TellsPaths};
ghost use Rattle.hs_folders.specs.Causes.{Rose};
ghost use Rattle.cmd_status.specs.Opening.{Opens, OpensAtMost};
ghost use Rattle.cmd_status.specs.Told.{sink_told};
ghost use Rattle.call_parts.specs.OfCalls.{OfCall, OfRun};
ghost use Rattle.cmd_session.specs.DryRuns.{HasDryRun, IsDryRun};
ghost use Rattle.call_parts.specs.Refusals.{BlamesHandheld, BlamesSource, IsDesktopFailure, IsHandheldFailure};
ghost use Rattle.run_words.specs.Views.{run_view};

use crate::run::traced_talk;
use call_parts::{Answer, SessionEnd, open_desktop, open_handheld, open_trace, script_of};
use cmd_status::Status;
use folder_copies::{CopiedFolder, copy_folder};
use hs_folders::{Folder, FolderOpenFault, Sink, Source};
use run_clap::RunWords;
use std::alloc::Global;
use trace_text::End;

/// Prints what a run of these words would do, and does it in memory alone. The trace is written.
pub fn dry_run_folders<H: Folder, D: Folder, S: Source, T: Sink, O: Sink>(
    alloc: Global,
    words: &RunWords<'_>,
    device: H,
    desk: D,
    source: &mut S,
    trace: &mut T,
    out: &mut O,
) -> Answer<H, D>
    ensures run { OfCall (IsDryRun (run_view words.now))
        H.Folder D.Folder S.Source T.Sink O.Sink
        device desk source.old trace.old out.old
        result source.new trace.new out.new }
    ensures source_first { BlamesSource result.status
        → (result.device ≡ device) × (result.desk ≡ desk) }
    ensures handheld_first { result.report.end ≡ SessionEnd.NotStarted
        → BlamesHandheld result.status → result.desk ≡ desk }
    ensures source { words.now.script ≡ None → source.new ≡ source.old }
    ensures trace { words.now.trace ≡ None → trace.new ≡ trace.old }
{
    let answer = judged_dry_run(alloc, words, device, desk, source, trace);
    answer.printed(alloc, out)
}

// Judges the script, and copies and judges the handheld's folder and the desktop's, in this order; opens the trace, and runs
// the session between the copies.
fn judged_dry_run<H: Folder, D: Folder, S: Source, T: Sink>(
    alloc: Global,
    words: &RunWords<'_>,
    device: H,
    desk: D,
    source: &mut S,
    trace: &mut T,
) -> Answer<H, D>
    ensures ran { OfRun (HasDryRun (run_view words.now))
        H.Folder D.Folder S.Source T.Sink device desk source.old trace.old
        result source.new trace.new }
    ensures unprinted { result.status ≢ Status.OutWrite }
    ensures source_first { BlamesSource result.status
        → (result.device ≡ device) × (result.desk ≡ desk) }
    ensures handheld_first { result.report.end ≡ SessionEnd.NotStarted
        → BlamesHandheld result.status → result.desk ≡ desk }
    ensures source { words.now.script ≡ None → source.new ≡ source.old }
    ensures trace { words.now.trace ≡ None → trace.new ≡ trace.old }
{
    let mut device = device;
    let mut desk = desk;
    let script = match script_of(alloc, source, words.script) {
        Ok(script) => script,
        Err(refusal) => return Answer::not_started(alloc, refusal, device, desk),
    };
    let palm = match copy_handheld(alloc, &mut device, words.handheld) {
        Ok(palm) => palm,
        Err(refusal) => return Answer::not_started(alloc, refusal, device, desk),
    };
    let store = match open_handheld(alloc, palm, words.handheld) {
        Ok(store) => store,
        Err((refusal, refused)) => return Answer::not_started(alloc, refusal, device, desk),
    };
    let files = match copy_desktop(alloc, &mut desk, words.desktop) {
        Ok(files) => files,
        Err(refusal) => return Answer::not_started(alloc, refusal, device, desk),
    };
    let kept = match open_desktop(alloc, files, words.desktop) {
        Ok(kept) => kept,
        Err((refusal, refused)) => return Answer::not_started(alloc, refusal, device, desk),
    };
    match open_trace(trace, words.trace) {
        Ok(()) => {
            let answer = traced_talk(alloc, words, store, kept, script, trace);
            let Answer {
                status,
                report,
                device: _,
                desk: _,
            } = answer;
            Answer {
                status,
                report,
                device,
                desk,
            }
        }
        Err(refusal) => Answer::not_started(alloc, refusal, device, desk),
    }
}

// Opens the handheld's folder at this path, and copies it.
fn copy_handheld<H: Folder>(
    alloc: Global,
    device: &mut H,
    path: &str,
) -> Result<CopiedFolder, Status>
    ensures refused { IfErr result IsHandheldFailure }
    ensures failed { IfErr result (λ refusal. refusal ≡ Status.HandheldFolder
        → Rose (H.faults device.old) (H.faults device.new)) }
    ensures in_use { IfErr result (λ refusal. refusal ≡ Status.InUse End.Handheld
        → Rose (H.faults device.old) (H.faults device.new)) }

    ensures copied { IfOk result (λ copy. IsCopy (H.contents device.old) (H.faults device.old)
        (H.faults device.new) (⟦<CopiedFolder as Folder>⟧.contents copy)) }
    ensures paths_of_copy { IfOk result (λ copy. TellsPaths (H.faults device.old)
        (H.faults device.new) (⟦<CopiedFolder as Folder>⟧.paths copy)) }
    ensures steady { (copy : Copy) → (⟦<CopiedFolder as Folder>⟧.paths copy ≡ None)
        ⊎ (⟦<CopiedFolder as Folder>⟧.faults copy ≡ 0) }

    ensures contents { H.contents device.new ≡ H.contents device.old }
    ensures moments { H.moments device.new ≡ H.moments device.old }
    ensures opened { OnOk result (Opens path.now (H.paths device.old) (H.paths device.new)) }
    ensures path { OpensAtMost path.now (H.paths device.old) (H.paths device.new) }
    ensures later { H.faults device.old ≤ H.faults device.new }
{
    match copy_folder(alloc, device, path) {
        Ok(copy) => Ok(copy),
        Err(FolderOpenFault::InUse) => Err(Status::InUse(End::Handheld)),
        Err(FolderOpenFault::Failed) => Err(Status::HandheldFolder),
        Err(FolderOpenFault::NoMemory) => Err(Status::NoMemory),
    }
}

// Opens the desktop's folder at this path, and copies it. A journal that was left is copied as it is.
fn copy_desktop<D: Folder>(alloc: Global, desk: &mut D, path: &str) -> Result<CopiedFolder, Status>
    ensures refused { IfErr result IsDesktopFailure }
    ensures failed { IfErr result (λ refusal. refusal ≡ Status.DesktopFolder
        → Rose (D.faults desk.old) (D.faults desk.new)) }
    ensures in_use { IfErr result (λ refusal. refusal ≡ Status.InUse End.Desktop
        → Rose (D.faults desk.old) (D.faults desk.new)) }

    ensures copied { IfOk result (λ copy. IsCopy (D.contents desk.old) (D.faults desk.old)
        (D.faults desk.new) (⟦<CopiedFolder as Folder>⟧.contents copy)) }
    ensures paths_of_copy { IfOk result (λ copy. TellsPaths (D.faults desk.old)
        (D.faults desk.new) (⟦<CopiedFolder as Folder>⟧.paths copy)) }
    ensures steady { (copy : Copy) → (⟦<CopiedFolder as Folder>⟧.paths copy ≡ None)
        ⊎ (⟦<CopiedFolder as Folder>⟧.faults copy ≡ 0) }

    ensures contents { D.contents desk.new ≡ D.contents desk.old }
    ensures moments { D.moments desk.new ≡ D.moments desk.old }
    ensures opened { OnOk result (Opens path.now (D.paths desk.old) (D.paths desk.new)) }
    ensures path { OpensAtMost path.now (D.paths desk.old) (D.paths desk.new) }
    ensures later { D.faults desk.old ≤ D.faults desk.new }
{
    match copy_folder(alloc, desk, path) {
        Ok(copy) => Ok(copy),
        Err(FolderOpenFault::InUse) => Err(Status::InUse(End::Desktop)),
        Err(FolderOpenFault::Failed) => Err(Status::DesktopFolder),
        Err(FolderOpenFault::NoMemory) => Err(Status::NoMemory),
    }
}
