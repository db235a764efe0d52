// Whether what came is acknowledged.
ghost use Rattle.std.specs.Prelude.{◌≡◌, ◌↔◌, ◌<◌, ◌≤◌, ◌+◌, ◌⊎◌, IfOk, IfSome, IfNone, IsTrue, length, map, reverse};
ghost use Rattle.std.specs.Bool.{MatchBool};
ghost use Rattle.trace_text.specs.Frames.{BearsFragment, came_in, past_of};
ghost use Rattle.trace_text.specs.Proper.{AcksAreFor, DataIsAcked, is_ack_of as ack_of};
ghost use Rattle.trace_text.specs.TraceLines.{frame_value};
ghost use Rattle.trace_check.specs.Acking.{AcksNext, Hears, HearsWrong, Passes, answered_of, data_came as data_of_past};
ghost use Rattle.trace_check.specs.Judging.{Keeps};
ghost use Rattle.trace_check.specs.Sending.{sent_value};
ghost use Rattle.trace_check.specs.declared.rule.Rule.TheVariants.{A, B, G};

use crate::came::{DataCame, data_came};
use crate::repeats::Repeats;
use crate::sent::{SentFrame, sent_in};
use padp_link::Key;
use std::alloc::{AllocError, Global};
use trace_text::{End, Frame};

// The repeats so far, and how many data frames of an end were acknowledged.
#[derive(Clone, Copy)]
pub(crate) struct Acks {
    pub(crate) repeats: Repeats,
    pub(crate) acked: usize,
}

// Whether the data that came is acknowledged in order in both directions, all of it or all but the last.
pub(crate) fn are_acked(alloc: Global, frames: &[Frame]) -> Result<bool, AllocError>
    requires few { length frames.now ≤ 4294967295 }
    requires ends { Keeps A (map frame_value frames.now) }
    requires bear { Keeps B (map frame_value frames.now) }
    ensures { IfOk result (λ acked. IsTrue acked ↔ Keeps G (map frame_value frames.now)) }
{
    let handheld = is_acked(alloc, frames, End::Handheld, End::Desktop)?;
    let desktop = is_acked(alloc, frames, End::Desktop, End::Handheld)?;
    Ok(handheld && desktop)
}

// Whether the data of one end that came is acknowledged by the other.
fn is_acked(alloc: Global, frames: &[Frame], from: End, by: End) -> Result<bool, AllocError>
    requires few { length frames.now ≤ 4294967295 }
    requires ends { Keeps A (map frame_value frames.now) }
    requires bear { Keeps B (map frame_value frames.now) }
    ensures { IfOk result (λ acked. IsTrue acked ↔ DataIsAcked from by
        (came_in (map frame_value frames.now)) (past_of (map frame_value frames.now))) }
{
    let data_frames = data_came(alloc, frames, from)?;
    let Some(acked) = count_acks(frames, from, by, &data_frames) else {
        return Ok(false);
    };
    Ok(is_enough(acked, data_frames.len()))
}

// Whether so many are all, or all but one.
fn is_enough(count: usize, all: usize) -> bool
    requires { count ≤ all }
    ensures { IsTrue result ↔ ((count ≡ all) ⊎ (count + 1 ≡ all)) }
{
    count == all || all - count == 1
}

// How many acknowledgements there are, where each is that of the next data frame that came.
fn count_acks(frames: &[Frame], from: End, by: End, data_frames: &[DataCame]) -> Option<usize>
    requires few { length frames.now ≤ 4294967295 }
    requires bear { Keeps B (map frame_value frames.now) }
    requires came { reverse data_frames.now ≡ data_of_past from
        (came_in (map frame_value frames.now)) (past_of (map frame_value frames.now)) }
    ensures some { IfSome result (λ acked. AcksAreFor by (came_in (map frame_value frames.now))
        (past_of (map frame_value frames.now)) (answered_of data_frames.now acked)) }
    ensures inside { IfSome result (λ acked. acked ≤ length data_frames.now) }
    ensures none { IfNone result (¬ (DataIsAcked from by
        (came_in (map frame_value frames.now)) (past_of (map frame_value frames.now)))) }
{
    let mut acks = Acks {
        repeats: Repeats::new(),
        acked: 0,
    };
    for frame in frames {
        if !acks.pass(frame, by, data_frames) {
            return None;
        }
    }
    Some(acks.acked)
}

impl Acks {
    // Passes a frame, if it is no acknowledgement or that of the next data frame.
    fn pass(&mut self, frame: &Frame, by: End, data_frames: &[DataCame]) -> bool
        requires bears { BearsFragment (frame_value frame.now) }
        requires room { self.old.repeats.count < 4294967295 }
        ensures { Passes by data_frames.now (frame_value frame.now) self.old result self.new }
    {
        match sent_in(frame) {
            Some(sent) => self.take(&sent, by, data_frames),
            None => true,
        }
    }

    fn take(&mut self, sent: &SentFrame<'_>, by: End, data_frames: &[DataCame]) -> bool
        requires { self.old.repeats.count < 4294967295 }
        ensures { MatchBool result
            (Hears by data_frames.now (sent_value sent.now) self.old self.new)
            (HearsWrong by data_frames.now (sent_value sent.now) self.old) }
    {
        if is_ack_of(sent, by) {
            if !self.acks_next(sent.key, data_frames) {
                return false;
            }
            self.acked += 1;
        }
        self.repeats.add(sent);
        true
    }

    // Whether an acknowledgement with this key is that of the next data frame.
    fn acks_next(&self, key: Key, data_frames: &[DataCame]) -> bool
        ensures { IsTrue result ↔ AcksNext data_frames.now self.now key }
    {
        if self.acked >= data_frames.len() {
            return false;
        }
        let next = data_frames[self.acked];
        next.key == key && self.repeats.reached_by(next)
    }
}

fn is_ack_of(sent: &SentFrame<'_>, by: End) -> bool
    ensures { result ≡ ack_of by (sent_value sent.now) }
{
    sent.from == by && !sent.is_data
}
