// Standard error. It tells nothing.
ghost use Rattle.std.specs.Prelude.{◌≡◌, None};

use hs_folders::{Sink, SinkFault};
use std::io::ErrorKind;
use std::{io, str};

/// Standard error. It tells neither what it took nor a path, and opening it does nothing. Bytes that are no UTF-8 are a fault.
#[derive(Drop)]
pub struct StderrSink<'r, R: Eprint> {
    rt: &'r R,
    faults: u64,
}

impl<'r, R: Eprint> StderrSink<'r, R> {
    /// Standard error of this runtime, with no faults.
    pub fn new(rt: &'r R) -> Self
        ensures taken { ⟦<Self as Sink>⟧.taken result ≡ None }
        ensures paths { ⟦<Self as Sink>⟧.paths result ≡ None }
        ensures faults { ⟦<Self as Sink>⟧.faults result ≡ 0 }
    {
        StderrSink { rt, faults: 0 }
    }
}

// Prints bytes that are a text.
fn print_bytes<R: Eprint>(rt: &R, bytes: &[u8]) -> io::Result<()> {
    match str::from_utf8(bytes) {
        Ok(text) => rt.eprint(text),
        Err(_) => Err(io::Error::from(ErrorKind::InvalidData)),
    }
}

#[tactic(auto, using(hs_folders::proofs::Prefixes::none_taken))]
impl<'r, R: Eprint> Sink for StderrSink<'r, R> {
    ghost taken = { λ _. None };

    ghost paths = { λ _. None };

    ghost faults = { λ sink. sink.faults };

    fn open(&mut self, _path: &str) -> Result<(), SinkFault> {
        Ok(())
    }

    fn write_all(&mut self, bytes: &[u8]) -> Result<(), SinkFault> {
        match print_bytes(self.rt, bytes) {
            Ok(()) => Ok(()),
            Err(error) if error.kind() == ErrorKind::OutOfMemory => Err(SinkFault::NoMemory),
            Err(_) => {
                self.faults = self.faults.saturating_add(1);
                Err(SinkFault::Failed)
            }
        }
    }
}
