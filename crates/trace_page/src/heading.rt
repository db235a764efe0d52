// What is counted of a trace.
ghost use Rattle.std.specs.Prelude.{◌≡◌, ◌++◌, ◌+◌, OnOk, [], if◌then◌else◌, length, map, string_bytes};
ghost use Rattle.trace_text.specs.TraceLines.{frame_value};
ghost use Rattle.trace_page.specs.Bearings.{borne};
ghost use Rattle.trace_page.specs.Pages as pages;

use crate::bearing::Bearing;
use crate::row::is_untouched;
use crate::seen::{Seen, is_data};
use std::alloc::AllocError;
use std::fmt::Write;
use trace_text::{End, Frame};

// How many frames are requests, were disturbed, were sent again.
#[derive(Clone, Copy)]
struct Tally {
    requests: usize,
    disturbed: usize,
    again: usize,
}

/// Appends what is counted of a trace.
pub(crate) fn push_heading(text: &mut String, frames: &[Frame]) -> Result<(), AllocError>
    ensures { OnOk result (string_bytes text.new
        ≡ string_bytes text.old ++ pages.heading (map frame_value frames.now)) }
{
    let tally = tally_of(frames);
    push_counts(text, frames.len(), tally)?;
    Ok(())
}

// Appends the sentence with these numbers.
#[tactic(auto, unfolding(crate::specs::Pages::counts_text))]
fn push_counts(text: &mut String, frames: usize, tally: Tally) -> Result<(), AllocError>
    ensures { OnOk result (string_bytes text.new ≡ string_bytes text.old
        ++ pages.counts_text frames tally.requests tally.disturbed tally.again) }
{
    text.push_str("<p>")?;
    push_count(text, frames, " frames, ")?;
    push_count(text, tally.requests, " requests, ")?;
    push_count(text, tally.disturbed, " disturbed by the line, ")?;
    push_count(text, tally.again, " sent again.</p>\n")?;
    Ok(())
}

#[tactic(auto, unfolding(crate::specs::Pages::count_text))]
fn push_count(text: &mut String, count: usize, word: &str) -> Result<(), AllocError>
    ensures { OnOk result (string_bytes text.new
        ≡ string_bytes text.old ++ pages.count_text count word.now) }
{
    write!(text, "{count}")?;
    text.push_str(word)?;
    Ok(())
}

fn tally_of(frames: &[Frame]) -> Tally
    ensures requests { result.requests
        ≡ pages.counted pages.is_request [] (map frame_value frames.now) }
    ensures disturbed { result.disturbed
        ≡ pages.counted pages.is_disturbed [] (map frame_value frames.now) }
    ensures again { result.again ≡ pages.counted pages.is_again [] (map frame_value frames.now) }
{
    let mut tally = Tally {
        requests: 0,
        disturbed: 0,
        again: 0,
    };
    let mut seen = Seen::new();
    for frame in frames {
        let bearing = Bearing::of(frame.bytes.as_slice());
        let place = seen.pass(frame.from, &bearing);
        tally.requests += usize::from(is_request(place.times, frame.from, &bearing));
        tally.disturbed += usize::from(!is_untouched(&frame.fate));
        tally.again += usize::from(place.times != 0);
    }
    tally
}

// Whether a request is sent for the first time.
fn is_request(times: u64, from: End, bearing: &Bearing) -> bool
    ensures { result ≡ pages.is_new_request times from bearing.now }
{
    times == 0 && begins_request(from, bearing)
}

fn begins_request(from: End, bearing: &Bearing) -> bool
    ensures { result ≡ pages.begins_request from bearing.now }
{
    match from {
        End::Handheld => false,
        End::Desktop => {
            is_data(bearing.kind) && bearing.begins_message() && !bearing.is_greeting()
        }
    }
}
