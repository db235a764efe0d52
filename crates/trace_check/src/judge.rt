// The verdict on a trace.
ghost use Rattle.std.specs.Prelude.{◌≤◌, IfOk, length, map};
ghost use Rattle.trace_text.specs.TraceLines.{frame_value};
ghost use Rattle.trace_check.specs.Judging.{IsVerdict};
ghost use Rattle.trace_check.specs.Readings.{AreTraced};

use crate::acking::are_acked;
use crate::bearing::bear_fragments;
use crate::ending::end_at_last;
use crate::ordering::come_in_order;
use crate::rule::{Rule, Verdict};
use crate::talking::whole_messages;
use crate::turns::judge_turns;
use std::alloc::{AllocError, Global};
use trace_text::Frame;

/// Judges a trace: proper, with its whole requests and replies, or not, by the first rule that it breaks.
pub fn verdict(alloc: Global, frames: &[Frame]) -> Result<Verdict, AllocError>
    requires few { length frames.now ≤ 4294967295 }
    requires traced { AreTraced 1 (map frame_value frames.now) }
    ensures { IfOk result (λ verdict. IsVerdict (map frame_value frames.now) verdict) }
{
    if !end_at_last(frames) {
        return Ok(Verdict::Not(Rule::A));
    }
    if !bear_fragments(frames) {
        return Ok(Verdict::Not(Rule::B));
    }
    if !come_in_order(frames) {
        return Ok(Verdict::Not(Rule::C));
    }
    let Some(wholes) = whole_messages(frames) else {
        return Ok(Verdict::Not(Rule::D));
    };
    let turns = judge_turns(alloc, frames)?;
    if !turns.knows {
        return Ok(Verdict::Not(Rule::E));
    }
    if !turns.answers {
        return Ok(Verdict::Not(Rule::F));
    }
    if !are_acked(alloc, frames)? {
        return Ok(Verdict::Not(Rule::G));
    }
    Ok(Verdict::Proper {
        requests: wholes.desktop.saturating_sub(1),
        replies: wholes.handheld.saturating_sub(1),
    })
}
