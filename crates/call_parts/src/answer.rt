// What a call hands back.
ghost use Rattle.std.specs.Prelude.{◌≡◌, ◌≢◌, None, option_copied};
ghost use Rattle.call_parts.specs.DoneLines.{done_lines};
ghost use Rattle.cmd_status.specs.Printed.{IsPrinted, IsPrintedStatus};
ghost use Rattle.cmd_status.specs.Told.{sink_told};
ghost use Rattle.call_parts.specs.Causes.{IsTracedStatus, IsUnsaid};
ghost use Rattle.call_parts.specs.Reports.{IsNotStarted};
ghost use Rattle.call_parts.specs.Traces.{TracesReport};

use crate::done_lines::print_status;
use crate::report::Report;
use crate::tracing::write_frames;
use cmd_status::Status;
use hs_folders::Sink;
use std::alloc::Global;

/// The status, the report and both folders, which come back with every status.
#[derive(Drop)]
pub struct Answer<H, D> {
    pub status: Status,
    pub report: Report,
    pub device: H,
    pub desk: D,
}

impl<H, D> Answer<H, D> {
    /// The answer of a call that sent nothing over a line.
    pub fn not_started(alloc: Global, status: Status, device: H, desk: D) -> Answer<H, D>
        ensures status { result.status ≡ status }
        ensures report { IsNotStarted result.report }
        ensures device { result.device ≡ device }
        ensures desk { result.desk ≡ desk }
    {
        Answer {
            status,
            report: Report::not_started(alloc),
            device,
            desk,
        }
    }

    /// Prints what was done. The status is then the one that stands.
    pub fn printed<O: Sink>(self, alloc: Global, out: &mut O) -> Answer<H, D>
        requires { self.status ≢ Status.OutWrite }
        ensures status { IsPrintedStatus self.status result.status }
        ensures printed { IsPrinted (λ text. text ≡ done_lines self.report.databases.items)
            (sink_told O.Sink out.old) (sink_told O.Sink out.new) result.status }
        ensures report { result.report ≡ self.report }
        ensures device { result.device ≡ self.device }
        ensures desk { result.desk ≡ self.desk }
    {
        let Answer {
            status,
            report,
            device,
            desk,
        } = self;
        let status = print_status(alloc, status, &report.databases, out);
        Answer {
            status,
            report,
            device,
            desk,
        }
    }

    /// Writes the trace of a session where the words name one. The status is then the one that stands.
    pub fn traced<T: Sink>(self, alloc: Global, path: Option<&str>, trace: &mut T) -> Answer<H, D>
        requires { IsUnsaid self.status }
        ensures status { IsTracedStatus self.status result.status }
        ensures unprinted { result.status ≢ Status.OutWrite }
        ensures traced { TracesReport (option_copied path.entry) result.report
            (sink_told T.Sink trace.old) (sink_told T.Sink trace.new) result.status }
        ensures untouched { path.entry ≡ None → trace.new ≡ trace.old }
        ensures report { result.report ≡ self.report }
        ensures device { result.device ≡ self.device }
        ensures desk { result.desk ≡ self.desk }
    {
        let Answer {
            status,
            report,
            device,
            desk,
        } = self;
        let status = write_frames(alloc, path, status, &report.frames, trace);
        Answer {
            status,
            report,
            device,
            desk,
        }
    }
}
