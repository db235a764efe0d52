//! A terminal of the system. It tells nothing.
ghost use Rattle.std.specs.Prelude.{◌≡◌, ◌≤◌, None, length, IfOk};
ghost use Rattle.hs_folders.specs.Causes.{HasCause};

use crate::port::Port;
use crate::port_fault::PortFault;
use std::fs::OpenOptions;
use std::io::{ErrorKind, Read, Write};
use std::os::unix::fs::FileTypeExt;
use std::rt::Files;
use std::{fs, io};

/// A serial port, or another terminal of the system, as `stty` has set it: raw, and with a timeout
/// (`min 0 time N`), so that a read of a silent line ends behind N tenths of a second with nothing. A
/// port that nobody set so may wait for ever.
///
/// Anything but a character device is refused unopened, since a file or a pipe has no ticks. Reading
/// and writing before it was opened are faults. It tells neither its bytes nor a path.
#[derive(Drop)]
pub struct TtyPort<'r, R: Files> {
    rt: &'r R,
    file: Option<R::File>,
    faults: u64,
}

impl<'r, R: Files> TtyPort<'r, R> {
    /// No terminal, until one is opened.
    pub fn new(rt: &'r R) -> Self
        ensures given { ⟦<Self as Port>⟧.given result ≡ None }
        ensures taken { ⟦<Self as Port>⟧.taken result ≡ None }
        ensures paths { ⟦<Self as Port>⟧.paths result ≡ None }
        ensures faults { ⟦<Self as Port>⟧.faults result ≡ 0 }
    {
        TtyPort {
            rt,
            file: None,
            faults: 0,
        }
    }
}

// What a refusal of the system is, with the count that it leaves.
fn counted(error: &io::Error, faults: &mut u64) -> PortFault
    ensures { HasCause faults.old faults.new (result ≡ PortFault.Failed) }
{
    if error.kind() == ErrorKind::OutOfMemory {
        return PortFault::NoMemory;
    }
    *faults = faults.saturating_add(1);
    PortFault::Failed
}

// Opens a character device for both ways.
fn open_device<R: Files>(rt: &R, path: &str) -> io::Result<R::File> {
    if !fs::metadata(rt, path)?.file_type().is_char_device() {
        return Err(io::Error::from(ErrorKind::InvalidInput));
    }
    OpenOptions::new().read(true).write(true).open(rt, path)
}

// Reads what came, or nothing behind a tick. A read that a signal broke off is such a tick.
fn read_some<F: Read>(file: &mut Option<F>, room: &mut [u8]) -> io::Result<usize>
    ensures { IfOk result (λ count. count ≤ length room.new) }
{
    let Some(file) = file else {
        return Err(io::Error::from(ErrorKind::NotFound));
    };
    match file.read(room) {
        Err(error) if error.kind() == ErrorKind::Interrupted => Ok(0),
        answer => answer,
    }
}

fn write_bytes<F: Write>(file: &mut Option<F>, bytes: &[u8]) -> io::Result<()> {
    match file {
        None => Err(io::Error::from(ErrorKind::NotFound)),
        Some(file) => file.write_all(bytes),
    }
}

#[tactic(auto, using(hs_folders::proofs::Prefixes::none_taken))]
impl<'r, R: Files> Port for TtyPort<'r, R> {
    ghost given = { λ _. None };

    ghost palm = { λ _. None };

    ghost taken = { λ _. None };

    ghost paths = { λ _. None };

    ghost faults = { λ port. port.faults };

    fn open(&mut self, path: &str) -> Result<(), PortFault> {
        match open_device(self.rt, path) {
            Ok(file) => {
                self.file = Some(file);
                Ok(())
            }
            Err(error) => Err(counted(&error, &mut self.faults)),
        }
    }

    fn write_all(&mut self, bytes: &[u8]) -> Result<(), PortFault> {
        match write_bytes(&mut self.file, bytes) {
            Ok(()) => Ok(()),
            Err(error) => Err(counted(&error, &mut self.faults)),
        }
    }

    fn read(&mut self, room: &mut [u8]) -> Result<usize, PortFault> {
        match read_some(&mut self.file, room) {
            Ok(count) => Ok(count),
            Err(error) => Err(counted(&error, &mut self.faults)),
        }
    }
}
