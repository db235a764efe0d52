// A handheld over captured bytes: what comes before its talk, the talk, and what it prints.
ghost use Rattle.std.specs.Prelude.{◌≡◌, ◌≢◌, ◌≤◌, IfErr, IsErrOf, OnOk, length, true};
ghost use Rattle.hs_folders.specs.Causes.{Rose};
ghost use Rattle.handheld_files.specs.Openings.{Stands, opened_device};
ghost use Rattle.device_stream.specs.Hands.{Hand};
ghost use Rattle.device_stream.specs.Runs.{IsReportOf};
ghost use Rattle.run_words.specs.Views.{capture_view};
ghost use Rattle.cmd_status.specs.Opening.{Opens, OpensAtMost};
ghost use Rattle.cmd_status.specs.Printed.{IsPrinted, IsPrintedStatus};
ghost use Rattle.hotsync_looks.specs.Served.{served_lines};
ghost use Rattle.cmd_status.specs.Told.{sink_told};
ghost use Rattle.call_parts.specs.OfCalls.{OfCall, OfRun};
ghost use Rattle.cmd_files.specs.Emulations.{HadTalk, IsEmulation, IsSourceFailure, MayEmulate, TellsHand, talk_status};

use call_parts::{Answer, Report, SessionEnd, open_handheld, open_named};
use cmd_status::{Status, print_refusal};
use device_stream::{DeviceEnd, DeviceReport, run_device};
use dlp_args::MessageText;
use handheld_server::Server;
use handheld_store::Store;
use hotsync_looks::print_served;
use hs_folders::{Folder, Sink, Source, SourceFault};
use run_clap::CaptureWords;
use std::alloc::Global;
use trace_text::FrameLog;

/// Runs the handheld's end over the bytes of a file, writes what it says, and prints how many requests it served. The
/// desktop's folder is handed back.
pub fn emulate<H: Folder, D: Folder, S: Source, T: Sink, O: Sink>(
    alloc: Global,
    words: &CaptureWords<'_>,
    device: H,
    desk: D,
    source: &mut S,
    sink: &mut T,
    out: &mut O,
) -> Answer<H, D>
    ensures emulation { OfCall (IsEmulation (capture_view words.now))
        H.Folder D.Folder S.Source T.Sink O.Sink
        device desk source.old sink.old out.old
        result source.new sink.new out.new }
    ensures desk { result.desk ≡ desk }
{
    let answer = judged_emulation(alloc, words, device, desk, source, sink);
    let Answer {
        status,
        report,
        device,
        desk,
    } = answer;
    let status = print_talk(alloc, status, &report.performed, out);
    Answer {
        status,
        report,
        device,
        desk,
    }
}

// Prints how many requests were served by a talk that ended, or the line of a refusal.
fn print_talk<O: Sink>(
    alloc: Global,
    status: Status,
    performed: &[MessageText],
    out: &mut O,
) -> Status
    requires { status ≢ Status.OutWrite }
    ensures status { IsPrintedStatus status result }
    ensures printed { IsPrinted (λ text. text ≡ served_lines (length performed.now))
        (sink_told O.Sink out.old) (sink_told O.Sink out.new) result }
{
    match status {
        Status::Done => print_served(alloc, performed.len(), out),
        refusal => print_refusal(alloc, refusal, out),
    }
}

// Judges the handheld's folder, opens what it hears and the file for what it says, in this order, and has the talk.
fn judged_emulation<H: Folder, D: Folder, S: Source, T: Sink>(
    alloc: Global,
    words: &CaptureWords<'_>,
    device: H,
    desk: D,
    source: &mut S,
    sink: &mut T,
) -> Answer<H, D>
    ensures ran { OfRun (MayEmulate (capture_view words.now))
        H.Folder D.Folder S.Source T.Sink device desk source.old sink.old
        result source.new sink.new }
    ensures unprinted { result.status ≢ Status.OutWrite }
    ensures desk { result.desk ≡ desk }
{
    let store = match open_handheld(alloc, device, words.handheld) {
        Ok(store) => store,
        Err((refusal, device)) => return Answer::not_started(alloc, refusal, device, desk),
    };
    match open_source(source, words.input) {
        Ok(()) => {}
        Err(refusal) => return Answer::not_started(alloc, refusal, store.into_folder(), desk),
    }
    match open_named(sink, words.output) {
        Ok(()) => talk_over(alloc, store, desk, source, sink),
        Err(refusal) => Answer::not_started(alloc, refusal, store.into_folder(), desk),
    }
}

// Opens the captured bytes.
fn open_source<S: Source>(source: &mut S, path: &str) -> Result<(), Status>
    ensures refused { IfErr result IsSourceFailure }
    ensures failed { IsErrOf result Status.SourceRead → Rose (S.faults source.old)
        (S.faults source.new) }

    ensures left { S.left source.new ≡ S.left source.old }
    ensures later { S.faults source.old ≤ S.faults source.new }
    ensures opened { OnOk result (Opens path.now (S.paths source.old) (S.paths source.new)) }
    ensures path { OpensAtMost path.now (S.paths source.old) (S.paths source.new) }
{
    match source.open(path) {
        Ok(()) => Ok(()),
        Err(SourceFault::Failed) => Err(Status::SourceRead),
        Err(SourceFault::NoMemory) => Err(Status::NoMemory),
    }
}

// Has the talk. The desktop's folder is handed back.
fn talk_over<H: Folder, D: Folder, S: Source, T: Sink>(
    alloc: Global,
    store: Store<H>,
    desk: D,
    source: &mut S,
    sink: &mut T,
) -> Answer<H, D>
    requires sound { store.sound ≡ true }
    requires stands { Stands (H.contents store.folder) store.databases store.user }
    ensures talk { OfRun (HadTalk (opened_device store.databases store.user))
        H.Folder D.Folder S.Source T.Sink store.folder desk source.old sink.old
        result source.new sink.new }
    ensures unprinted { result.status ≢ Status.OutWrite }

    ensures keeper { result.status ≡ Status.HandheldFolder → Rose (H.faults store.folder)
        (H.faults result.device) }
    ensures source { result.status ≡ Status.SourceRead → Rose (S.faults source.old)
        (S.faults source.new) }
    ensures sink { result.status ≡ Status.TraceWrite → Rose (T.faults sink.old)
        (T.faults sink.new) }
    ensures folder_path { H.paths result.device ≡ H.paths store.folder }
    ensures source_path { S.paths source.new ≡ S.paths source.old }
    ensures sink_path { T.paths sink.new ≡ T.paths sink.old }
    ensures desk { result.desk ≡ desk }
{
    let (end, talk, device) = run_device(alloc, Server::new(store), source, sink);
    Answer {
        status: status_of(end),
        report: report_of(alloc, talk),
        device,
        desk,
    }
}

// The status of a talk that ended so.
fn status_of(end: DeviceEnd) -> Status
    ensures { result ≡ talk_status end }
{
    match end {
        DeviceEnd::Ended => Status::Done,
        DeviceEnd::SourceRead => Status::SourceRead,
        DeviceEnd::SinkWrite => Status::TraceWrite,
        DeviceEnd::Keeper => Status::HandheldFolder,
        DeviceEnd::StreamEnded => Status::StreamEnded,
        DeviceEnd::StreamAborted => Status::StreamAborted,
        DeviceEnd::BadHello => Status::BadHello,
        DeviceEnd::TooLong => Status::TooLong,
        DeviceEnd::NoMemory => Status::NoMemory,
    }
}

// What a talk performed, as a report. Nothing went over a line.
fn report_of(alloc: Global, talk: DeviceReport) -> Report
    ensures { (hand : Hand) → IsReportOf hand talk → TellsHand hand result }
{
    let DeviceReport { performed, replies } = talk;
    Report {
        end: SessionEnd::NotStarted,
        databases: Vec::new(alloc),
        issued: Vec::new(alloc),
        performed,
        replies,
        given: Vec::new(alloc),
        writes: 0,
        frames: FrameLog::new(alloc),
        faulted: Vec::new(alloc),
        to_handheld: None,
        to_desktop: None,
    }
}
