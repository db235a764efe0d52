// What is known of both ends of the line while their frames are judged.
ghost use Rattle.std.specs.Prelude.{◌≡◌, ◌<◌, ◌≤◌, ◌+◌, ◌^◌, IfOk, IfSome, OnOk};
ghost use Rattle.std.specs.Option.{option_map};
ghost use Rattle.trace_text.specs.Talks.{answer_to as answer_of, answered_by as asked_by};
ghost use Rattle.trace_check.specs.BothEnds.{both_after, both_value, hearer_after, repeat_after, side_of, speaker_after};
ghost use Rattle.trace_check.specs.Sides.{no_side, side_value};
ghost use Rattle.trace_check.specs.Turns.{answers_after, has_answer, is_known, is_new as is_new_by, knows_after, turn_value};

use crate::notice::Notice;
use crate::side::{Side, is_free};
use std::alloc::{AllocError, Global};
use trace_text::End;

// What is known of both ends, and the newest repeat, or 0.
#[derive(Drop)]
pub(crate) struct Both {
    pub(crate) handheld: Side,
    pub(crate) desktop: Side,
    pub(crate) repeat: u32,
}

// The message that an end's message of this number answers.
fn answered_by(from: End, number: usize) -> Option<(End, usize)>
    ensures turn { option_map turn_value result ≡ asked_by from number }
    ensures number { IfSome result (λ turn. turn.1 ≤ number) }
{
    match from {
        End::Handheld => match number {
            0 => None,
            _ => Some((End::Desktop, number)),
        },
        End::Desktop => match number {
            0 => Some((End::Handheld, 0)),
            1 => Some((End::Desktop, 0)),
            _ => Some((End::Handheld, number - 1)),
        },
    }
}

// The other end's message that answers it.
fn answer_to(from: End, number: usize) -> Option<usize>
    requires { number + 1 < 2 ^ 64 }
    ensures { result ≡ answer_of from number }
{
    match from {
        End::Handheld => match number {
            0 => Some(0),
            _ => Some(number + 1),
        },
        End::Desktop => match number {
            0 => None,
            _ => Some(number),
        },
    }
}

impl Both {
    // Both ends before the first frame.
    pub(crate) fn new(alloc: Global) -> Result<Both, AllocError>
        ensures { IfOk result (λ both. both_value both ≡ record
            { handheld = no_side; desktop = no_side; repeat = 0 }) }
    {
        Ok(Both {
            handheld: Side::new(alloc)?,
            desktop: Side::new(alloc)?,
            repeat: 0,
        })
    }

    // What is known of an end.
    fn side(&self, end: End) -> &Side
        ensures { side_value result.now ≡ side_of end (both_value self.now) }
    {
        match end {
            End::Handheld => &self.handheld,
            End::Desktop => &self.desktop,
        }
    }

    // Whether an end knows that its newest fragment was taken.
    fn is_known(&self, from: End) -> bool
        ensures { result ≡ is_known from (both_value self.now) }
    {
        let side = self.side(from);
        if is_free(self.repeat, side.ack) {
            return true;
        }
        if !side.is_start() {
            return false;
        }
        let Some(answer) = answer_to(from, side.starts.len().saturating_sub(2)) else {
            return false;
        };
        match from {
            End::Handheld => self.desktop.is_start_free(self.repeat, answer),
            End::Desktop => self.handheld.is_start_free(self.repeat, answer),
        }
    }

    // Whether what its next message answers was taken, where its next fragment begins one.
    fn has_answer(&self, from: End) -> bool
        ensures { result ≡ has_answer from (both_value self.now) }
    {
        let side = self.side(from);
        if !side.is_start() {
            return true;
        }
        match answered_by(from, side.starts.len().saturating_sub(1)) {
            Some((end, number)) => self.side(end).is_end_free(self.repeat, number),
            None => true,
        }
    }

    // Whether the frame bears a new fragment.
    fn is_new(&self, notice: &Notice) -> bool
        ensures { result ≡ is_new_by notice.now (side_of notice.now.from (both_value self.now)) }
    {
        notice.is_data && !self.side(notice.from).is_newest(notice.key)
    }

    // Whether its end knows that the fragment before was taken, where the frame bears a new one.
    pub(crate) fn knows(&self, notice: &Notice) -> bool
        ensures { result ≡ knows_after notice.now (both_value self.now) }
    {
        !self.is_new(notice)
            || self.side(notice.from).arrivals.is_empty()
            || self.is_known(notice.from)
    }

    // Whether what its message answers was taken, where the frame bears a new fragment.
    pub(crate) fn answers(&self, notice: &Notice) -> bool
        ensures { result ≡ answers_after notice.now (both_value self.now) }
    {
        !self.is_new(notice) || self.has_answer(notice.from)
    }

    // Goes on behind the frame.
    pub(crate) fn take(&mut self, notice: &Notice) -> Result<(), AllocError>
        ensures { OnOk result (both_value self.new ≡ both_after notice.now (both_value self.old)) }
    {
        match notice.from {
            End::Handheld => {
                step(
                    notice,
                    &mut self.handheld,
                    &mut self.desktop,
                    &mut self.repeat,
                )
            }
            End::Desktop => step(
                notice,
                &mut self.desktop,
                &mut self.handheld,
                &mut self.repeat,
            ),
        }
    }
}

// One end sends the frame to the other.
fn step(
    notice: &Notice,
    speaker: &mut Side,
    hearer: &mut Side,
    repeat: &mut u32,
) -> Result<(), AllocError>
    ensures speaker { OnOk result
        (side_value speaker.new ≡ speaker_after notice.now (side_value speaker.old)) }
    ensures hearer { OnOk result (side_value hearer.new
        ≡ hearer_after notice.now (side_value speaker.old) (side_value hearer.old)) }
    ensures repeat { OnOk result
        (repeat.new ≡ repeat_after notice.now (side_value speaker.old) repeat.old) }
{
    if notice.late {
        speaker.late = notice.number;
    }
    let arrival = notice.came.then_some(speaker.late);
    if !notice.is_data {
        hearer.hear(notice.key, arrival);
        return Ok(());
    }
    if speaker.is_newest(notice.key) {
        *repeat = notice.number;
        speaker.repeat(arrival);
        return Ok(());
    }
    speaker.begin(notice.key, arrival)
}
