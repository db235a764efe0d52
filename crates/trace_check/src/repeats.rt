// The newest repeat.
ghost use Rattle.std.specs.Prelude.{◌≡◌, ◌↔◌, ◌<◌, IsTrue, Some, None, if◌then◌else◌};
ghost use Rattle.trace_check.specs.Acking.{HasReached, newest_of, repeats_after};
ghost use Rattle.trace_text.specs.Past.{is_data_of as data_of};
ghost use Rattle.trace_check.specs.Sending.{sent_value};

use crate::came::{DataCame, is_data_of};
use crate::sent::SentFrame;
use padp_link::Key;
use trace_text::End;

// The newest keys of both ends, the number of the newest repeat of either, or 0, and how many frames there were.
#[derive(Clone, Copy)]
pub(crate) struct Repeats {
    pub(crate) handheld: Option<Key>,
    pub(crate) desktop: Option<Key>,
    pub(crate) newest: u32,
    pub(crate) count: u32,
}

impl Repeats {
    pub(crate) fn new() -> Repeats
        ensures { result ≡ record { handheld = None; desktop = None; newest = 0; count = 0 } }
    {
        Repeats {
            handheld: None,
            desktop: None,
            newest: 0,
            count: 0,
        }
    }

    // Counts a frame.
    pub(crate) fn add(&mut self, sent: &SentFrame<'_>)
        requires { self.old.count < 4294967295 }
        ensures { self.new ≡ repeats_after (sent_value sent.now) self.old }
    {
        let again = sent.is_data && self.newest_of(sent.from) == Some(sent.key);
        self.count += 1;
        self.newest = if again { self.count } else { self.newest };
        self.handheld = newest_key(sent, End::Handheld, self.handheld);
        self.desktop = newest_key(sent, End::Desktop, self.desktop);
    }

    // Whether a data frame reached what is sent next.
    pub(crate) fn reached_by(&self, data_frame: DataCame) -> bool
        ensures { IsTrue result ↔ HasReached self.now data_frame }
    {
        data_frame.number <= self.count && (data_frame.late == 0 || data_frame.late < self.newest)
    }

    fn newest_of(&self, from: End) -> Option<Key>
        ensures { result ≡ newest_of from self.now }
    {
        match from {
            End::Handheld => self.handheld,
            End::Desktop => self.desktop,
        }
    }
}

// The newest key of an end behind a frame.
fn newest_key(sent: &SentFrame<'_>, from: End, older: Option<Key>) -> Option<Key>
    ensures { result ≡ (if data_of from (sent_value sent.now) then Some sent.now.key else older) }
{
    if is_data_of(sent, from) {
        Some(sent.key)
    } else {
        older
    }
}
