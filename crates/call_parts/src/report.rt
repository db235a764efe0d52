// What a call did.
ghost use Rattle.call_parts.specs.Reports.{IsNotStarted};
ghost use Rattle.std.specs.Prelude.{◌≡◌};

use dlp_args::MessageText;
use pdb_values::RecordId;
use session_parts::DbReport;
use slp_frames::Tally;
use std::alloc::Global;
use trace_text::FrameLog;

/// How far a session over the line came.
#[derive(Clone, Copy, PartialEq, Eq)]
pub enum SessionEnd {
    /// Nothing was sent.
    NotStarted,
    /// Its last request was answered.
    Ended,
    /// It stopped before that.
    Stopped,
}

/// What a call did, beside its status.
#[derive(Drop)]
pub struct Report {
    /// How far the session came.
    pub end: SessionEnd,
    /// What was done with each database, in byte order of names, by a session that ended.
    pub databases: Vec<DbReport>,
    /// The requests that the desktop sent.
    pub issued: Vec<MessageText>,
    /// The requests that the handheld performed.
    pub performed: Vec<MessageText>,
    /// What the handheld replied to each of them.
    pub replies: Vec<MessageText>,
    /// The ids that the handheld gave to new records, in order.
    pub given: Vec<RecordId>,
    /// How many of the performed requests write what was planned.
    pub writes: u64,
    /// All frames of the line, in the order of sending.
    pub frames: FrameLog,
    /// The last ten frames that the line did harm, where it is down.
    pub faulted: Vec<u64>,
    /// What the handheld's reader took, where a session began.
    pub to_handheld: Option<Tally>,
    /// What the desktop's reader took, where a session began.
    pub to_desktop: Option<Tally>,
}

impl Report {
    /// The report of a call that sent nothing over a line.
    pub fn not_started(alloc: Global) -> Report
        ensures { IsNotStarted result }
    {
        Report {
            end: SessionEnd::NotStarted,
            databases: Vec::new(alloc),
            issued: Vec::new(alloc),
            performed: Vec::new(alloc),
            replies: Vec::new(alloc),
            given: Vec::new(alloc),
            writes: 0,
            frames: FrameLog::new(alloc),
            faulted: Vec::new(alloc),
            to_handheld: None,
            to_desktop: None,
        }
    }
}
