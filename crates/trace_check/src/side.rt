// What is known of an end of the line while its frames are judged.
ghost use Rattle.std.specs.Prelude.{◌≡◌, ◌<◌, ◌+◌, ◌^◌, IfOk, OnOk};
ghost use Rattle.padp_link.specs.Pieces.{piece_count as pieces_of};
ghost use Rattle.trace_check.specs.Arrivals.{is_free as frees};
ghost use Rattle.trace_check.specs.Sides.{arrival_at as arrival_in, is_end_free as end_frees, is_start_free as start_frees};
ghost use Rattle.trace_check.specs.Sides.{is_key, is_start as starts, no_side, side_value, with_ack, with_fragment, with_repeat};

use padp_link::{Key, MAX_DATA};
use std::alloc::{AllocError, Global};

// What is known of an end. What came has an arrival: the newest late frame, or 0, that its end sent up to the first frame
// that came with it.
#[derive(Drop)]
pub(crate) struct Side {
    // How many fragments stand before each message that it began, and before the next.
    pub(crate) starts: Vec<usize>,
    // The arrival of each fragment that it said.
    pub(crate) arrivals: Vec<Option<u32>>,
    // The key of its newest fragment.
    pub(crate) key: Option<Key>,
    // The arrival of the acknowledgement of that.
    pub(crate) ack: Option<u32>,
    // Its newest late frame, or 0.
    pub(crate) late: u32,
}

// How many pieces a message of this size has.
fn piece_count(size: u16) -> usize
    ensures { result ≡ pieces_of size }
{
    usize::from(size).div_ceil(MAX_DATA).max(1)
}

// Whether what has this arrival isn't held, by the newest repeat.
pub(crate) fn is_free(repeat: u32, arrival: Option<u32>) -> bool
    ensures { result ≡ frees repeat arrival }
{
    match arrival {
        Some(late) => late == 0 || late < repeat,
        None => false,
    }
}

impl Side {
    // An end that has said nothing.
    pub(crate) fn new(alloc: Global) -> Result<Side, AllocError>
        ensures { IfOk result (λ side. side_value side ≡ no_side) }
    {
        let mut starts = Vec::new(alloc);
        starts.push(0)?;
        Ok(Side {
            starts,
            arrivals: Vec::new(alloc),
            key: None,
            ack: None,
            late: 0,
        })
    }

    // Whether its newest fragment has this key.
    pub(crate) fn is_newest(&self, key: Key) -> bool
        ensures { result ≡ is_key key self.now.key }
    {
        match self.key {
            Some(newest) => {
                key.id == newest.id && key.flags == newest.flags && key.size == newest.size
            }
            None => false,
        }
    }

    // Whether its next fragment begins a message.
    pub(crate) fn is_start(&self) -> bool
        ensures { result ≡ starts (side_value self.now) }
    {
        match self.starts.last() {
            Some(start) => self.arrivals.len() == *start,
            None => self.arrivals.is_empty(),
        }
    }

    // It says a new fragment.
    pub(crate) fn begin(&mut self, key: Key, arrival: Option<u32>) -> Result<(), AllocError>
        ensures { OnOk result
            (side_value self.new ≡ with_fragment key arrival (side_value self.old)) }
    {
        if self.is_start() {
            let next = self.arrivals.len() + piece_count(key.size);
            self.starts.push(next)?;
        }
        self.arrivals.push(arrival)?;
        self.key = Some(key);
        self.ack = None;
        Ok(())
    }

    // It says its newest fragment again.
    pub(crate) fn repeat(&mut self, arrival: Option<u32>)
        ensures { side_value self.new ≡ with_repeat arrival (side_value self.old) }
    {
        let count = self.arrivals.len();
        if count > 0 {
            self.arrivals[count - 1] = self.arrivals[count - 1].or(arrival);
        }
    }

    // The other end acknowledges the fragment with this key.
    pub(crate) fn hear(&mut self, key: Key, arrival: Option<u32>)
        ensures { side_value self.new ≡ with_ack key arrival (side_value self.old) }
    {
        if self.is_newest(key) {
            self.ack = self.ack.or(arrival);
        }
    }

    // Whether the first fragment of its message of this number reached the other end.
    pub(crate) fn is_start_free(&self, repeat: u32, number: usize) -> bool
        ensures { result ≡ start_frees repeat number (side_value self.now) }
    {
        match self.starts.get(number) {
            Some(start) => is_free(repeat, self.arrival_at(*start)),
            None => false,
        }
    }

    // Whether the last one did.
    pub(crate) fn is_end_free(&self, repeat: u32, number: usize) -> bool
        requires { number + 1 < 2 ^ 64 }
        ensures { result ≡ end_frees repeat number (side_value self.now) }
    {
        match self.starts.get(number + 1) {
            Some(next) => is_free(repeat, self.arrival_at(next.saturating_sub(1))),
            None => false,
        }
    }

    // The arrival of the fragment that stands behind so many.
    fn arrival_at(&self, place: usize) -> Option<u32>
        ensures { result ≡ arrival_in place (side_value self.now) }
    {
        match self.arrivals.get(place) {
            Some(arrival) => *arrival,
            None => None,
        }
    }
}
