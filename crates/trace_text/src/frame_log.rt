//! The frames of a line, in little memory.
ghost use Rattle.std.specs.Prelude.{◌≡◌, ◌⊎◌, ◌+◌, ◌^◌, ◌≤◌, ◌<◌, ◌++◌, [], OnErr, OnOk, length, vec_capacity, vec_len};
ghost use Rattle.trace_text.specs.FrameEntries.{IsWithin, frame_at};
ghost use Rattle.trace_text.specs.FrameLogs.{Adds, IsFrameAt, byte_count, KeepsRoom, marked};
ghost use Rattle.trace_text.specs.Lent.{lent_fate, lent_frame};
ghost use Rattle.trace_text.specs.TraceLines.{frame_value};

use crate::fate::{FateKind, FateLent};
use crate::frame::{End, FrameLent};
use std::alloc::{AllocError, Global};
use std::marker::Model;

/// The frames of a line in the order of sending: the bytes of all of them one behind the other, and a short entry for each.
#[derive(Drop)]
pub struct FrameLog {
    entries: Vec<Entry>,
    bytes: Vec<u8>,
}

/// All of a frame but its bytes, and where these stand: from `start` on those of its fate, and from `middle` to `end` its own.
#[derive(Clone, Copy)]
struct Entry {
    from: End,
    kind: FateKind,
    came: bool,
    start: usize,
    middle: usize,
    end: usize,
}

impl Model for FrameLog {
    ghost use Rattle.std.specs.Prelude.{vec_capacity, vec_len};
    ghost use Rattle.trace_text.specs.FrameLogs.{FrameLogValue};

    ghost Value = { FrameLogValue };

    ghost use Rattle.trace_text.specs.FrameEntries.{AllWithin, frames_in};

    ghost view = { λ log. record {
      items = frames_in log.bytes.items 1 log.entries.items;
      room = vec_capacity log.entries;
      byte_room = vec_capacity log.bytes;
    } };

    ghost invariant = { λ log. AllWithin 0 log.entries.items (vec_len log.bytes) };
}

impl FrameLog {
    /// No frames. It takes no memory.
    pub fn new(alloc: Global) -> FrameLog
        ensures { result.items ≡ [] }
    {
        FrameLog {
            entries: Vec::new(alloc),
            bytes: Vec::new(alloc),
        }
    }

    /// How many frames there are.
    pub fn len(&self) -> usize
        ensures count { result ≡ length self.now.items }
        ensures few { result < 2 ^ 63 }
    {
        self.entries.len()
    }

    /// The frame behind so many.
    pub fn get(&self, place: usize) -> FrameLent<'_>
        requires { place < length self.now.items }
        ensures { IsFrameAt self.now.items place (lent_frame result) }
    {
        frame_in(&self.bytes, place, self.entries[place])
    }

    /// One frame more, of this end, with this fate and these bytes, that didn't come yet. Memory runs out only where the entries
    /// outgrow their room, or where the bytes have less room left than one frame may take.
    pub fn push(&mut self, from: End, fate: FateLent<'_>, bytes: &[u8]) -> Result<(), AllocError>
        requires { length bytes.now ≤ 1040 }
        ensures ok { OnOk result
            (Adds from (lent_fate fate.entry) bytes.now self.old.items self.new.items) }
        ensures err { OnErr result (self.new.items ≡ self.old.items) }
        ensures room { KeepsRoom self.old self.new }
        ensures full { OnErr result ((self.old.room ≤ length self.old.items)
            ⊎ (self.old.byte_room < byte_count self.old.items + 2080)) }
    {
        self.entries.reserve(1)?;
        self.bytes.reserve(fate.bytes.len() + bytes.len())?;
        let start = self.bytes.len();
        append(&mut self.bytes, fate.bytes);
        let middle = self.bytes.len();
        append(&mut self.bytes, bytes);
        let end = self.bytes.len();
        let _added = self
            .entries
            .push(Entry {
                from,
                kind: fate.kind,
                came: false,
                start,
                middle,
                end,
            })
            .is_ok();
        Ok(())
    }

    /// Marks the frame behind so many: it came.
    pub fn mark(&mut self, place: usize)
        requires { place < length self.old.items }
        ensures { self.new ≡ record self.old { items = marked place self.old.items } }
    {
        self.entries[place].came = true;
    }
}

// The frame behind so many that an entry is over these bytes.
fn frame_in(bytes: &[u8], place: usize, entry: Entry) -> FrameLent<'_>
    requires within { IsWithin (length bytes.now) entry }
    requires few { place < 2 ^ 63 }
    ensures { lent_frame result ≡ frame_value (frame_at bytes.now (place + 1) entry) }
{
    FrameLent {
        number: place as u64 + 1,
        from: entry.from,
        fate: FateLent {
            kind: entry.kind,
            bytes: &bytes[entry.start..entry.middle],
        },
        came: entry.came,
        bytes: &bytes[entry.middle..entry.end],
    }
}

// Appends bytes for which there is room.
fn append(bytes: &mut Vec<u8>, more: &[u8])
    requires { vec_len bytes.old + length more.now ≤ vec_capacity bytes.old }
    ensures items { bytes.new.items ≡ bytes.old.items ++ more.now }
    ensures len { vec_len bytes.new ≡ vec_len bytes.old + length more.now }
    ensures room { vec_capacity bytes.old ≤ vec_capacity bytes.new }
{
    let _fits = bytes.extend_from_slice(more).is_ok();
}
