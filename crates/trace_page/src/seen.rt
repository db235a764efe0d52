// What is known of the frames so far.
ghost use Rattle.std.specs.Prelude.{◌≡◌, ◌<◌, ◌≤◌, ◌+◌, ◌^◌, []};
ghost use Rattle.trace_text.specs.Frames.{is_data_kind};
ghost use Rattle.trace_text.specs.Past.{same_key};
ghost use Rattle.trace_page.specs.Seen as specs;

use crate::bearing::Bearing;
use padp_link::{Key, PadpKind};
use trace_text::End;

/// What is known of an end: the key of its newest data frame, how many with that key stand in a row, and the first byte of
/// the message that it is at.
#[derive(Clone, Copy)]
pub(crate) struct Side {
    pub newest: Option<Key>,
    pub run: u64,
    pub front: u8,
}

/// What is known of both ends.
#[derive(Clone, Copy)]
pub(crate) struct Seen {
    pub handheld: Side,
    pub desktop: Side,
}

/// What is known of a frame by those before it: which sending a repeat is, 0 for another frame, and the first byte of the
/// message that its end is at.
#[derive(Clone, Copy)]
pub(crate) struct Place {
    pub(crate) times: u64,
    pub(crate) front: u8,
}

// An end that sent nothing.
const SILENT: Side = Side {
    newest: None,
    run: 0,
    front: 0,
};

impl Seen {
    /// Nothing was sent.
    #[tactic(auto, unfolding(crate::specs::Seen::seen_of))]
    pub(crate) fn new() -> Seen
        ensures { result ≡ specs.seen_of [] }
    {
        Seen {
            handheld: SILENT,
            desktop: SILENT,
        }
    }

    // What is known of an end.
    fn side(&self, end: End) -> Side
        ensures { result ≡ specs.side_in end self.now }
    {
        match end {
            End::Handheld => self.handheld,
            End::Desktop => self.desktop,
        }
    }

    // Both ends behind a frame of this one.
    fn after(&self, from: End, bearing: &Bearing) -> Seen
        requires { (specs.side_in from self.now).run + 1 < 2 ^ 64 }
        ensures { result ≡ specs.seen_after from bearing.now self.now }
    {
        match from {
            End::Handheld => Seen {
                handheld: self.handheld.after(bearing),
                desktop: self.desktop,
            },
            End::Desktop => Seen {
                handheld: self.handheld,
                desktop: self.desktop.after(bearing),
            },
        }
    }
}

impl Seen {
    /// Passes a frame of this end.
    pub(crate) fn pass(&mut self, from: End, bearing: &Bearing) -> Place
        requires { (specs.side_in from self.old).run + 1 < 2 ^ 64 }
        ensures seen { self.new ≡ specs.seen_after from bearing.now self.old }
        ensures times { result.times ≡ specs.times_by (specs.side_in from self.old) bearing.now }
        ensures front { result.front ≡ (specs.side_in from self.new).front }
    {
        let times = self.side(from).times(bearing);
        *self = self.after(from, bearing);
        Place {
            times,
            front: self.side(from).front,
        }
    }
}

impl Side {
    // Which sending of its fragment a frame of this end is, 0 where it is no repeat.
    fn times(&self, bearing: &Bearing) -> u64
        requires { self.now.run + 1 < 2 ^ 64 }
        ensures { result ≡ specs.times_by self.now bearing.now }
    {
        if is_data(bearing.kind) && is_newest(bearing.key, self.newest) {
            self.run + 1
        } else {
            0
        }
    }

    // The end behind a frame of its own.
    fn after(&self, bearing: &Bearing) -> Side
        requires { self.now.run + 1 < 2 ^ 64 }
        ensures { result ≡ specs.side_after self.now bearing.now }
    {
        if !is_data(bearing.kind) {
            return *self;
        }
        Side {
            newest: Some(bearing.key),
            run: if is_newest(bearing.key, self.newest) {
                self.run + 1
            } else {
                1
            },
            front: if bearing.begins_message() {
                bearing.front
            } else {
                self.front
            },
        }
    }
}

/// Whether it is a data fragment.
pub(crate) fn is_data(kind: PadpKind) -> bool
    ensures { result ≡ is_data_kind kind }
{
    match kind {
        PadpKind::Data => true,
        _ => false,
    }
}

// Whether this key is the newest one.
fn is_newest(key: Key, newest: Option<Key>) -> bool
    ensures { result ≡ specs.is_newest key newest }
{
    match newest {
        Some(newest) => is_same(key, newest),
        None => false,
    }
}

fn is_same(key: Key, other: Key) -> bool
    ensures { result ≡ same_key key other }
{
    key.id == other.id && key.flags == other.flags && key.size == other.size
}
