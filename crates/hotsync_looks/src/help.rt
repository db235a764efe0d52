// Help.
ghost use Rattle.hotsync_looks.specs.Helped.{IsHelped};
ghost use Rattle.cmd_status.specs.Told.{sink_told};

use crate::help_text::help_text;
use cmd_status::{Status, print_no_memory, print_text};
use hs_folders::Sink;
use run_words::Topic;
use std::alloc::{AllocError, Global};

/// Prints the text of a topic on `out`, or on `err` that memory ran out.
pub fn print_help<O: Sink, E: Sink>(alloc: Global, topic: Topic, out: &mut O, err: &mut E) -> Status
    ensures { IsHelped topic (sink_told O.Sink out.old) (sink_told O.Sink out.new)
        (sink_told E.Sink err.old) (sink_told E.Sink err.new) result }
{
    match help_text(alloc, topic) {
        Ok(text) => print_text(text.as_bytes(), out),
        Err(AllocError) => print_no_memory(err),
    }
}
