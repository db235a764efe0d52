//! What a reader counts.
ghost use Rattle.std.specs.Prelude.{◌≡◌};
ghost use Rattle.slp_frames.specs.Histories.{raised};

use std::marker::Model;

/// How many bytes a reader took and how many packets it handed out since it was made. A count that
/// reaches its greatest value stays there.
#[derive(Clone, Copy)]
pub struct Tally {
    bytes: u64,
    packets: u64,
}

impl Model for Tally {
    ghost use Rattle.slp_frames.specs.Readers.{TallyValue};

    ghost Value = { TallyValue };

    ghost view = { λ tally. record { bytes = tally.bytes; packets = tally.packets } };

    ghost inverse = { λ tally. record { bytes = tally.bytes; packets = tally.packets } };
}

impl Tally {
    pub(crate) fn new() -> Self
        ensures { result ≡ record { bytes = 0; packets = 0 } }
    {
        Tally {
            bytes: 0,
            packets: 0,
        }
    }

    /// The bytes that the reader took.
    pub fn bytes(&self) -> u64
        ensures { result ≡ self.now.bytes }
    {
        self.bytes
    }

    /// The packets that the reader handed out.
    pub fn packets(&self) -> u64
        ensures { result ≡ self.now.packets }
    {
        self.packets
    }

    pub(crate) fn add_bytes(&mut self, count: usize)
        ensures { self.new ≡ record self.old { bytes = raised self.old.bytes count } }
    {
        self.bytes = self.bytes.saturating_add(count as u64);
    }

    pub(crate) fn add_packet(&mut self)
        ensures { self.new ≡ record self.old { packets = raised self.old.packets 1 } }
    {
        self.packets = self.packets.saturating_add(1);
    }
}
