// Standard output. It tells nothing.
ghost use Rattle.std.specs.Prelude.{◌≡◌, None};

use crate::faults::SinkFault;
use crate::sink::Sink;
use std::io::ErrorKind;

/// Standard output. It tells neither what it took nor a path, and opening it does nothing.
#[derive(Drop)]
pub struct StdoutSink<'r, R: Print> {
    rt: &'r R,
    faults: u64,
}

impl<'r, R: Print> StdoutSink<'r, R> {
    /// Standard output of this runtime, with no faults.
    pub fn new(rt: &'r R) -> Self
        ensures taken { ⟦<Self as Sink>⟧.taken result ≡ None }
        ensures paths { ⟦<Self as Sink>⟧.paths result ≡ None }
        ensures faults { ⟦<Self as Sink>⟧.faults result ≡ 0 }
    {
        StdoutSink { rt, faults: 0 }
    }
}

#[tactic(auto, using(crate::proofs::Prefixes::none_taken))]
impl<'r, R: Print> Sink for StdoutSink<'r, R> {
    ghost taken = { λ _. None };

    ghost paths = { λ _. None };

    ghost faults = { λ sink. sink.faults };

    fn open(&mut self, _path: &str) -> Result<(), SinkFault> {
        Ok(())
    }

    fn write_all(&mut self, bytes: &[u8]) -> Result<(), SinkFault> {
        match self.rt.write_all(bytes) {
            Ok(()) => Ok(()),
            Err(error) if error.kind() == ErrorKind::OutOfMemory => Err(SinkFault::NoMemory),
            Err(_) => {
                self.faults = self.faults.saturating_add(1);
                Err(SinkFault::Failed)
            }
        }
    }
}
