// A source in memory. It tells what it has left.
ghost use Rattle.std.specs.Prelude.{◌≡◌, ◌<◌, ◌≤◌, ◌↔◌, ◌++◌, ◌∷◌, [], Some, map, take, drop, length, string_bytes, vec_len, OnOk, OnErr, IfOk, IfSome, IsErrOf};
ghost use Rattle.std.specs.Option.{option_map};
ghost use Rattle.hs_folders.specs.Calls.{CountsCall};
ghost use Rattle.hs_folders.specs.Causes.{HasCause};

use crate::calls::Calls;
use crate::faults::SourceFault;
use crate::source::Source;
use std::alloc::Global;

/// A source in memory. It tells the bytes that it has left and the paths that it was opened at.
#[derive(Drop)]
pub struct MemSource {
    alloc: Global,
    bytes: Vec<u8>,
    // How many of the bytes were read.
    place: usize,
    opened: Vec<String>,
    calls: Calls,
    ghost within: { place ≤ vec_len bytes },
}

impl MemSource {
    ghost use Rattle.hs_folders.specs.MemSources.{calls_made, failing_calls};

    /// A source with these bytes left, which was never opened.
    pub fn new(alloc: Global, bytes: Vec<u8>) -> Self
        ensures left { ⟦<Self as Source>⟧.left result ≡ Some bytes.items }
        ensures paths { ⟦<Self as Source>⟧.paths result ≡ Some [] }
        ensures faults { ⟦<Self as Source>⟧.faults result ≡ 0 }
        ensures calls { calls_made result ≡ 0 }
        ensures failing { failing_calls result ≡ [] }
    {
        MemSource {
            alloc,
            bytes,
            place: 0,
            opened: Vec::new(alloc),
            calls: Calls::new(alloc),
        }
    }

    /// Makes the calls of these numbers answer `Failed`, counted from 1 since the source was made. They
    /// take the place of those that were given before.
    pub fn fail_calls(&mut self, calls: Vec<u32>)
        ensures failing { failing_calls self.new ≡ calls.items }

        ensures left { ⟦<Self as Source>⟧.left self.new ≡ ⟦<Self as Source>⟧.left self.old }
        ensures paths { ⟦<Self as Source>⟧.paths self.new ≡ ⟦<Self as Source>⟧.paths self.old }
        ensures faults { ⟦<Self as Source>⟧.faults self.new ≡ ⟦<Self as Source>⟧.faults self.old }
        ensures calls { calls_made self.new ≡ calls_made self.old }
    {
        self.calls.failing = calls;
    }
}

// Copies as many bytes as there are and as there is room for.
fn copy_front(room: &mut [u8], left: &[u8]) -> usize
    requires { 0 < length room.old }
    ensures room { result ≤ length room.new }
    ensures there { result ≤ length left.now }
    ensures bytes { take result room.new ≡ take result left.now }
    ensures end { (result ≡ 0) ↔ (left.now ≡ []) }
{
    let count = room.len().min(left.len());
    room[..count].copy_from_slice(&left[..count]);
    count
}

// Beside the trait's clauses each method says that the call is counted, and that it answers
// `Failed` exactly where its number is one of those that are to fail.
impl Source for MemSource {
    ghost use Rattle.hs_folders.specs.MemSources.{calls_made, failing_calls};

    ghost left = { λ source. Some (drop source.place source.bytes.items) };

    ghost paths = { λ source. Some (map string_bytes source.opened.items) };

    ghost faults = { λ source. source.calls.faults };

    fn open(&mut self, path: &str) -> Result<(), SourceFault>
        ensures opened { OnOk result (⟦<Self as Source>⟧.paths self.new ≡ option_map (λ paths.
            paths ++ path.now ∷ []) (⟦<Self as Source>⟧.paths self.old)) }
        ensures refused { OnErr result (
            ⟦<Self as Source>⟧.paths self.new ≡ ⟦<Self as Source>⟧.paths self.old) }
        ensures left { ⟦<Self as Source>⟧.left self.new ≡ ⟦<Self as Source>⟧.left self.old }
        ensures cause { HasCause (⟦<Self as Source>⟧.faults self.old)
            (⟦<Self as Source>⟧.faults self.new) (IsErrOf result SourceFault.Failed) }

        ensures counted { CountsCall (calls_made self.old) (calls_made self.new)
            (failing_calls self.old) (failing_calls self.new) (IsErrOf result SourceFault.Failed) }
    {
        if self.calls.count() {
            return Err(SourceFault::Failed);
        }
        self.opened.push(String::from_str(self.alloc, path)?)?;
        Ok(())
    }

    fn read(&mut self, room: &mut [u8]) -> Result<usize, SourceFault>
        requires { 0 < length room.old }
        ensures bound { IfOk result (λ count. count ≤ length room.new) }
        ensures bytes { IfOk result (λ count. IfSome (⟦<Self as Source>⟧.left self.old) (λ left.
            take count room.new ≡ take count left)) }
        ensures rest { IfOk result (λ count. ⟦<Self as Source>⟧.left self.new ≡ option_map (λ left.
            drop count left) (⟦<Self as Source>⟧.left self.old)) }
        ensures end { IfOk result (λ count. IfSome (⟦<Self as Source>⟧.left self.old) (λ left.
            (count ≡ 0) ↔ (left ≡ []))) }
        ensures stays { OnErr result (
            ⟦<Self as Source>⟧.left self.new ≡ ⟦<Self as Source>⟧.left self.old) }
        ensures paths { ⟦<Self as Source>⟧.paths self.new ≡ ⟦<Self as Source>⟧.paths self.old }
        ensures cause { HasCause (⟦<Self as Source>⟧.faults self.old)
            (⟦<Self as Source>⟧.faults self.new) (IsErrOf result SourceFault.Failed) }

        ensures counted { CountsCall (calls_made self.old) (calls_made self.new)
            (failing_calls self.old) (failing_calls self.new) (IsErrOf result SourceFault.Failed) }
    {
        if self.calls.count() {
            return Err(SourceFault::Failed);
        }
        let count = copy_front(room, &self.bytes[self.place..]);
        self.place += count;
        Ok(count)
    }
}
