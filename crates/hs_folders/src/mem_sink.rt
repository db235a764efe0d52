// A sink in memory. It tells what it took.
ghost use Rattle.std.specs.Prelude.{◌≡◌, ◌++◌, ◌∷◌, [], Some, map, string_bytes, OnOk, OnErr, IsErrOf};
ghost use Rattle.std.specs.Option.{option_map};
ghost use Rattle.hs_folders.specs.Appends.{AppendsPrefix};
ghost use Rattle.hs_folders.specs.Calls.{CountsCall};
ghost use Rattle.hs_folders.specs.Causes.{HasCause};
ghost use Rattle.hs_folders.specs.MemSinks.{calls_made, failing_calls};

use crate::calls::Calls;
use crate::faults::SinkFault;
use crate::sink::Sink;
use std::alloc::Global;

/// A sink in memory. It tells the bytes that it took and the paths that it was opened at.
#[derive(Drop)]
pub struct MemSink {
    alloc: Global,
    taken: Vec<u8>,
    opened: Vec<String>,
    calls: Calls,
}

impl MemSink {
    /// A sink that took nothing and was never opened.
    pub fn new(alloc: Global) -> Self
        ensures taken { ⟦<Self as Sink>⟧.taken result ≡ Some [] }
        ensures paths { ⟦<Self as Sink>⟧.paths result ≡ Some [] }
        ensures faults { ⟦<Self as Sink>⟧.faults result ≡ 0 }
        ensures calls { calls_made result ≡ 0 }
        ensures failing { failing_calls result ≡ [] }
    {
        MemSink {
            alloc,
            taken: Vec::new(alloc),
            opened: Vec::new(alloc),
            calls: Calls::new(alloc),
        }
    }

    /// What it took.
    pub fn bytes(&self) -> &[u8]
        ensures { Some result.now ≡ ⟦<Self as Sink>⟧.taken self.now }
    {
        &self.taken
    }

    /// Makes the calls of these numbers answer `Failed`, counted from 1 since the sink was made. They
    /// take the place of those that were given before.
    pub fn fail_calls(&mut self, calls: Vec<u32>)
        ensures failing { failing_calls self.new ≡ calls.items }

        ensures taken { ⟦<Self as Sink>⟧.taken self.new ≡ ⟦<Self as Sink>⟧.taken self.old }
        ensures paths { ⟦<Self as Sink>⟧.paths self.new ≡ ⟦<Self as Sink>⟧.paths self.old }
        ensures faults { ⟦<Self as Sink>⟧.faults self.new ≡ ⟦<Self as Sink>⟧.faults self.old }
        ensures calls { calls_made self.new ≡ calls_made self.old }
    {
        self.calls.failing = calls;
    }
}

// Beside the trait's clauses each method says that the call is counted, and that it answers
// `Failed` exactly where its number is one of those that are to fail.
#[tactic(auto, using(crate::proofs::Prefixes::none_taken))]
impl Sink for MemSink {
    ghost taken = { λ sink. Some sink.taken.items };

    ghost paths = { λ sink. Some (map string_bytes sink.opened.items) };

    ghost faults = { λ sink. sink.calls.faults };

    fn open(&mut self, path: &str) -> Result<(), SinkFault>
        ensures opened { OnOk result (⟦<Self as Sink>⟧.paths self.new ≡ option_map (λ paths.
            paths ++ path.now ∷ []) (⟦<Self as Sink>⟧.paths self.old)) }
        ensures refused { OnErr result (
            ⟦<Self as Sink>⟧.paths self.new ≡ ⟦<Self as Sink>⟧.paths self.old) }
        ensures taken { ⟦<Self as Sink>⟧.taken self.new ≡ ⟦<Self as Sink>⟧.taken self.old }
        ensures cause { HasCause (⟦<Self as Sink>⟧.faults self.old)
            (⟦<Self as Sink>⟧.faults self.new) (IsErrOf result SinkFault.Failed) }

        ensures counted { CountsCall (calls_made self.old) (calls_made self.new)
            (failing_calls self.old) (failing_calls self.new) (IsErrOf result SinkFault.Failed) }
    {
        if self.calls.count() {
            return Err(SinkFault::Failed);
        }
        self.opened.push(String::from_str(self.alloc, path)?)?;
        Ok(())
    }

    fn write_all(&mut self, bytes: &[u8]) -> Result<(), SinkFault>
        ensures written { OnOk result (⟦<Self as Sink>⟧.taken self.new ≡ option_map (λ taken.
            taken ++ bytes.now) (⟦<Self as Sink>⟧.taken self.old)) }
        ensures prefix { OnErr result (AppendsPrefix
            (⟦<Self as Sink>⟧.taken self.old) (⟦<Self as Sink>⟧.taken self.new) bytes.now) }
        ensures paths { ⟦<Self as Sink>⟧.paths self.new ≡ ⟦<Self as Sink>⟧.paths self.old }
        ensures cause { HasCause (⟦<Self as Sink>⟧.faults self.old)
            (⟦<Self as Sink>⟧.faults self.new) (IsErrOf result SinkFault.Failed) }

        ensures counted { CountsCall (calls_made self.old) (calls_made self.new)
            (failing_calls self.old) (failing_calls self.new) (IsErrOf result SinkFault.Failed) }
    {
        if self.calls.count() {
            return Err(SinkFault::Failed);
        }
        self.taken.extend_from_slice(bytes)?;
        Ok(())
    }
}
