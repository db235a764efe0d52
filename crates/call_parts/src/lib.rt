//! What the calls with a session share, whatever they have it for: the line's script is read, the folders of both sides
//! are opened and judged, the trace is opened and written, and a session that is over is told by a status and a report, whose
//! lines are printed.
#![tactic(auto)]

mod answer;
mod clock;
mod closing;
mod done_lines;
mod left;
mod line;
mod report;
mod reporting;
mod script;
mod sides;
mod touched_lines;
mod tracing;

pub use answer::Answer;
pub use clock::seconds_now;
pub use closing::{Closed, close_session};
pub use done_lines::print_status;
pub use line::line_to;
pub use report::{Report, SessionEnd};
pub use script::script_of;
pub use sides::{open_desktop, open_files, open_handheld};
pub use touched_lines::print_touched;
pub use tracing::{open_named, open_trace, write_text};
