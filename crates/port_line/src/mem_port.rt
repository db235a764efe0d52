//! A port in memory. It tells what it gave and took.
ghost use Rattle.std.specs.Prelude.{◌≡◌, ◌<◌, ◌≤◌, ◌-◌, ◌↔◌, ◌++◌, ◌∷◌, [], Some, None, map, min, take, drop, length, string_bytes, vec_items, OnOk, OnErr, IfOk, IsErrOf, option_map};
ghost use Rattle.hs_folders.specs.Appends.{AppendsPrefix};
ghost use Rattle.hs_folders.specs.Causes.{HasCause};
ghost use Rattle.port_line.specs.MemPorts.{coming, good_calls, read_of, left_of};

use crate::calls::Calls;
use crate::port::Port;
use crate::port_fault::PortFault;
use crate::room::{behind, copy_front};
use std::alloc::Global;

/// A port in memory, over which pieces of bytes come, one a read, and then nothing any more. An empty
/// piece is a tick of silence. It tells what it gave and took and the paths that it was opened at.
#[derive(Drop)]
pub struct MemPort {
    alloc: Global,
    pieces: Vec<Vec<u8>>,
    // The piece that comes next, and how much of it was given.
    next: usize,
    from: usize,
    given: Vec<Vec<u8>>,
    taken: Vec<u8>,
    opened: Vec<String>,
    calls: Calls,
}

impl MemPort {
    /// A port over which these pieces will come, which was never opened.
    pub fn new(alloc: Global, pieces: Vec<Vec<u8>>) -> Self
        ensures coming { coming result ≡ map vec_items pieces.items }
        ensures given { ⟦<Self as Port>⟧.given result ≡ Some [] }
        ensures taken { ⟦<Self as Port>⟧.taken result ≡ Some [] }
        ensures paths { ⟦<Self as Port>⟧.paths result ≡ Some [] }
        ensures faults { ⟦<Self as Port>⟧.faults result ≡ 0 }
        ensures good { good_calls result ≡ None }
    {
        MemPort {
            alloc,
            pieces,
            next: 0,
            from: 0,
            given: Vec::new(alloc),
            taken: Vec::new(alloc),
            opened: Vec::new(alloc),
            calls: Calls {
                good: None,
                faults: 0,
            },
        }
    }

    /// What it took.
    pub fn bytes(&self) -> &[u8]
        ensures { Some result.now ≡ ⟦<Self as Port>⟧.taken self.now }
    {
        &self.taken
    }

    /// Makes all calls fail behind so many good ones, as where the cable is pulled.
    pub fn fail_behind(&mut self, good: u64)
        ensures good { good_calls self.new ≡ Some good }

        ensures coming { coming self.new ≡ coming self.old }
        ensures given { ⟦<Self as Port>⟧.given self.new ≡ ⟦<Self as Port>⟧.given self.old }
        ensures taken { ⟦<Self as Port>⟧.taken self.new ≡ ⟦<Self as Port>⟧.taken self.old }
        ensures paths { ⟦<Self as Port>⟧.paths self.new ≡ ⟦<Self as Port>⟧.paths self.old }
        ensures faults { ⟦<Self as Port>⟧.faults self.new ≡ ⟦<Self as Port>⟧.faults self.old }
    {
        self.calls.good = Some(good);
    }

    // Puts the front of what comes next into the room, and answers how much.
    fn copy_next(&mut self, room: &mut [u8]) -> usize
        requires { 0 < length room.old }
        ensures bound { result ≤ length room.new }
        ensures bytes { take result room.new ≡ read_of (length room.old) (coming self.old) }
        ensures coming { coming self.new ≡ left_of (length room.old) (coming self.old) }
        ensures given { self.new.given ≡ self.old.given }
        ensures taken { self.new.taken ≡ self.old.taken }
        ensures opened { self.new.opened ≡ self.old.opened }
        ensures calls { self.new.calls ≡ self.old.calls }
    {
        let Some(piece) = self.pieces.get(self.next) else {
            return 0;
        };
        let left = behind(piece, self.from);
        let is_last = left.len() <= room.len();
        let count = copy_front(room, left);
        if is_last {
            self.next += 1;
            self.from = 0;
        } else {
            self.from += count;
        }
        count
    }
}

// Beside the trait's clauses each method says that it fails exactly where the good calls are over, and
// a read gives what comes next.
#[tactic(auto, using(hs_folders::proofs::Prefixes::none_taken))]
impl Port for MemPort {
    ghost given = { λ port. Some (map vec_items port.given.items) };

    ghost taken = { λ port. Some port.taken.items };

    ghost palm = { λ port. None };

    ghost paths = { λ port. Some (map string_bytes port.opened.items) };

    ghost faults = { λ port. port.calls.faults };

    fn open(&mut self, path: &str) -> Result<(), PortFault> {
        if self.calls.count() {
            return Err(PortFault::Failed);
        }
        self.opened.push(String::from_str(self.alloc, path)?)?;
        Ok(())
    }

    fn write_all(&mut self, bytes: &[u8]) -> Result<(), PortFault> {
        if self.calls.count() {
            return Err(PortFault::Failed);
        }
        self.taken.extend_from_slice(bytes)?;
        Ok(())
    }

    fn read(&mut self, room: &mut [u8]) -> Result<usize, PortFault> {
        if self.calls.count() {
            return Err(PortFault::Failed);
        }
        self.given.reserve(1)?;
        let mut piece = Vec::with_capacity(self.alloc, room.len())?;
        let count = self.copy_next(room);
        piece.extend_from_slice(&room[..count])?;
        self.given.push(piece)?;
        Ok(count)
    }
}
