// The report of a session that is over.
ghost use Rattle.std.specs.Prelude.{◌≡◌};
ghost use Rattle.dlp_commands.specs.Changes.{changes};
ghost use Rattle.line_world.specs.Logs.{texts};
ghost use Rattle.call_parts.specs.LineRuns.{TellsWorld, write_count};

use crate::report::{Report, SessionEnd};
use dlp_args::MessageText;
use hs_folders::Folder;
use line_world::{LineLog, World};
use session_parts::DbReport;

/// The functions by which databases or the user change.
const CHANGING: [u8; 12] = [
    0x11, 0x18, 0x1A, 0x1C, 0x1E, 0x21, 0x22, 0x24, 0x25, 0x26, 0x27, 0x2C,
];

/// Hands out what went over a line, as a report, and the handheld's folder.
pub fn report_of<H: Folder>(
    world: World<H>,
    end: SessionEnd,
    databases: Vec<DbReport>,
    faulted: Vec<u64>,
) -> (Report, H)
    ensures end { result.0.end ≡ end }
    ensures databases { result.0.databases ≡ databases }
    ensures faulted { result.0.faulted ≡ faulted }
    ensures folder { result.1 ≡ world.server.folder }

    ensures tells { TellsWorld world result.0 }
{
    let (log, folder) = world.into_log();
    let LineLog {
        issued,
        performed,
        replies,
        given,
        frames,
        to_handheld,
        to_desktop,
    } = log;
    let writes = count_writes(&performed);
    let report = Report {
        end,
        databases,
        issued,
        performed,
        replies,
        given,
        writes,
        frames,
        faulted,
        to_handheld: Some(to_handheld),
        to_desktop: Some(to_desktop),
    };
    (report, folder)
}

// How many of these requests change databases or the user.
fn count_writes(requests: &[MessageText]) -> u64
    ensures { result ≡ write_count (texts requests.now) }
{
    let mut count = 0u64;
    for text in requests {
        if is_change(text.bytes()) {
            count += 1;
        }
    }
    count
}

// Whether a request changes databases or the user, by its first byte.
#[tactic(auto, unfolding(dlp_commands::specs::Changes::changes))]
fn is_change(request: &[u8]) -> bool
    ensures { result ≡ changes request.now }
{
    match request.first() {
        Some(function) => CHANGING.contains(function),
        None => false,
    }
}
