//! A trace of a serial line: whether it is proper, and its page for a browser.

ghost use Rattle.std.specs.Prelude.{◌≡◌, ◌≤◌, IfErr, IfOk, Ok as OkValue, length, map, string_bytes};
ghost use Rattle.trace_text.specs.TraceLines.{frame_value};
ghost use Rattle.trace_check.specs.Readings.{IsTraceReading};
ghost use Rattle.hotsync_c.specs.Answers.{Answers, answer_of};
ghost use Rattle.hotsync_c.specs.Traces.{IsFound, IsJudged, RefusesTrace, ShowsTrace, rule_letter};

use crate::refusal::Refusal;
use crate::room::put;
use std::alloc::Global;
use trace_check::{MOST_BYTES, Rule, TraceFault, Verdict, read_trace, verdict};
use trace_page::page_text;
use trace_text::Frame;

/// Judges the text of a trace.
///
/// The answer is 0 for a proper trace: then `requests` and `replies` are its whole requests and replies. It is the letter
/// of the first rule that the trace breaks, 65 for A to 71 for G; -100 - N where line N, counted from 1, is the first that
/// is none of a trace; -2 for more than 67,108,864 bytes; -1 where memory was refused. In all of these cases `requests` and
/// `replies` are 0.
#[unsafe(no_mangle)]
pub extern "C" fn hs_verify(
    alloc: Global,
    trace: &[u8],
    requests: &mut u32,
    replies: &mut u32,
) -> i64
    ensures { IsJudged trace.now requests.new replies.new result }
{
    *requests = 0;
    *replies = 0;
    match judged(alloc, trace) {
        Ok(
            Verdict::Proper {
                requests: asked,
                replies: answered,
            },
        ) => {
            *requests = asked;
            *replies = answered;
            0
        }
        Ok(Verdict::Not(rule)) => i64::from(rule_letter(rule)),
        Err(refusal) => refusal.answer(),
    }
}

/// Puts the page of the trace into the room that these bytes are the text of: a row for each frame, for a browser.
///
/// The answer is how long it is, or less than 0 as `hs_verify` says.
#[unsafe(no_mangle)]
pub extern "C" fn hs_picture(alloc: Global, trace: &[u8], room: &mut [u8]) -> i64
    ensures { Answers (ShowsTrace trace.now) (RefusesTrace trace.now) room.old room.new result }
{
    match pictured(alloc, trace) {
        Ok(text) => put(text.as_bytes(), room),
        Err(refusal) => refusal.answer(),
    }
}

// The verdict on the text of a trace.
fn judged(alloc: Global, trace: &[u8]) -> Result<Verdict, Refusal>
    ensures found { IfOk result (IsFound trace.now) }
    ensures refused { IfErr result (RefusesTrace trace.now) }
{
    let frames = frames_in(alloc, trace)?;
    let found = verdict(alloc, &frames)?;
    Ok(found)
}

// The page of a trace.
fn pictured(alloc: Global, trace: &[u8]) -> Result<String, Refusal>
    ensures shown { IfOk result (λ text. ShowsTrace trace.now (string_bytes text)) }
    ensures refused { IfErr result (RefusesTrace trace.now) }
{
    let frames = frames_in(alloc, trace)?;
    let text = page_text(alloc, &frames)?;
    Ok(text)
}

// The frames of a trace.
fn frames_in(alloc: Global, trace: &[u8]) -> Result<Vec<Frame>, Refusal>
    ensures read { IfOk result (λ frames.
        IsTraceReading trace.now (OkValue (map frame_value frames.items))) }
    ensures few { IfOk result (λ frames. length frames.items ≤ 67108864) }
    ensures refused { IfErr result (RefusesTrace trace.now) }
{
    if trace.len() > MOST_BYTES {
        return Err(Refusal::Form);
    }
    match read_trace(alloc, trace) {
        Ok(frames) => Ok(frames),
        Err(TraceFault::BadLine(line)) => Err(Refusal::BadLine(line)),
        Err(TraceFault::NoMemory) => Err(Refusal::Memory),
    }
}

// The letter of a rule.
fn rule_letter(rule: Rule) -> u8
    ensures { result ≡ rule_letter rule }
{
    match rule {
        Rule::A => b'A',
        Rule::B => b'B',
        Rule::C => b'C',
        Rule::D => b'D',
        Rule::E => b'E',
        Rule::F => b'F',
        Rule::G => b'G',
    }
}
