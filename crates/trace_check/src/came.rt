// The data frames that came.
ghost use Rattle.std.specs.Prelude.{◌≡◌, ◌≤◌, IfOk, length, map, reverse, if◌then◌else◌, ◌&&◌};
ghost use Rattle.trace_text.specs.Faults.{late_of};
ghost use Rattle.trace_text.specs.Frames.{came_in, past_of};
ghost use Rattle.trace_text.specs.Past.{is_data_of};
ghost use Rattle.trace_text.specs.TraceLines.{frame_value};
ghost use Rattle.trace_check.specs.Acking.{data_came as data_of_past};
ghost use Rattle.trace_check.specs.Judging.{Keeps};
ghost use Rattle.trace_check.specs.Sending.{sent_value};
ghost use Rattle.trace_check.specs.declared.rule.Rule.TheVariants.{A, B};

use crate::sent::{Course, SentFrame, sent_in};
use padp_link::Key;
use std::alloc::{AllocError, Global};
use trace_text::{End, Frame};

// A data frame that came: its number, its key, and the number of the newest late frame of its end up to it, or 0.
#[derive(Clone, Copy)]
pub(crate) struct DataCame {
    pub(crate) number: u32,
    pub(crate) key: Key,
    pub(crate) late: u32,
}

// The data frames of an end that came, the oldest first.
pub(crate) fn data_came(
    alloc: Global,
    frames: &[Frame],
    from: End,
) -> Result<Vec<DataCame>, AllocError>
    requires few { length frames.now ≤ 4294967295 }
    requires ends { Keeps A (map frame_value frames.now) }
    requires bear { Keeps B (map frame_value frames.now) }
    ensures { IfOk result (λ data_frames. reverse data_frames.items ≡ data_of_past from
        (came_in (map frame_value frames.now)) (past_of (map frame_value frames.now))) }
{
    let mut data_frames = Vec::new(alloc);
    let mut number = 0;
    let mut late = 0;
    for frame in frames {
        let Some(sent) = sent_in(frame) else {
            return Ok(data_frames);
        };
        number += 1;
        late = newest_late(&sent, from, number, late);
        if is_data_that_came(&sent, from, frame.came) {
            data_frames.push(DataCame {
                number,
                key: sent.key,
                late,
            })?;
        }
    }
    Ok(data_frames)
}

// The number of the newest late frame of an end, where this is the newest frame.
fn newest_late(sent: &SentFrame<'_>, from: End, number: u32, late: u32) -> u32
    ensures { result ≡ (if late_of from (sent_value sent.now) then number else late) }
{
    if sent.from != from {
        return late;
    }
    match sent.course {
        Course::Late => number,
        Course::Came | Course::Gone => late,
    }
}

fn is_data_that_came(sent: &SentFrame<'_>, from: End, came: bool) -> bool
    ensures { result ≡ (is_data_of from (sent_value sent.now) && came) }
{
    is_data_of(sent, from) && came
}

pub(crate) fn is_data_of(sent: &SentFrame<'_>, from: End) -> bool
    ensures { result ≡ is_data_of from (sent_value sent.now) }
{
    sent.from == from && sent.is_data
}
