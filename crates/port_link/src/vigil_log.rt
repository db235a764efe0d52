//! All that was said and heard at a port, in order.
ghost use Rattle.std.specs.Prelude.{◌≡◌, ◌++◌, ◌∷◌, [], IfOk, OnErr, OnOk};
ghost use Rattle.slp_frames.specs.PacketValues.{lent_value};
ghost use Rattle.port_link.specs.Logs.{EntryValue, log_entries};
ghost use Rattle.port_link.specs.Logs as entry;

use crate::entry::{Entry, HeardPacket};
use slp_frames::PacketLent;
use std::alloc::{AllocError, Global};

/// All that was said and heard so far.
#[derive(Drop)]
pub(crate) struct Log {
    pub(crate) alloc: Global,
    pub(crate) entries: Vec<Entry>,
}

impl Log {
    pub(crate) fn new(alloc: Global) -> Log
        ensures { log_entries result.entries ≡ [] }
    {
        Log {
            alloc,
            entries: Vec::new(alloc),
        }
    }

    /// Keeps what is said.
    pub(crate) fn say(&mut self, text: &[u8]) -> Result<(), AllocError>
        ensures kept { OnOk result (log_entries self.new.entries
            ≡ log_entries self.old.entries ++ entry.Said text.now ∷ []) }
        ensures stays { OnErr result (log_entries self.new.entries
            ≡ log_entries self.old.entries) }
    {
        let said = copy(self.alloc, text)?;
        self.entries.push(Entry::Said(said))?;
        Ok(())
    }

    /// Keeps a packet that came.
    pub(crate) fn hear(&mut self, packet: PacketLent<'_>) -> Result<(), AllocError>
        ensures kept { OnOk result (log_entries self.new.entries
            ≡ log_entries self.old.entries ++ entry.Heard (lent_value packet.entry) ∷ []) }
        ensures stays { OnErr result (log_entries self.new.entries
            ≡ log_entries self.old.entries) }
    {
        let heard = HeardPacket {
            dest: packet.dest,
            source: packet.source,
            kind: packet.kind,
            id: packet.id,
            body: copy(self.alloc, packet.body)?,
        };
        self.entries.push(Entry::Heard(heard))?;
        Ok(())
    }

    /// Keeps a tick that brought nothing.
    pub(crate) fn tick(&mut self) -> Result<(), AllocError>
        ensures kept { OnOk result (log_entries self.new.entries
            ≡ log_entries self.old.entries ++ entry.Silent ∷ []) }
        ensures stays { OnErr result (log_entries self.new.entries
            ≡ log_entries self.old.entries) }
    {
        self.entries.push(Entry::Silent)?;
        Ok(())
    }
}

// The bytes in memory of their own.
fn copy(alloc: Global, bytes: &[u8]) -> Result<Vec<u8>, AllocError>
    ensures { IfOk result (λ copied. copied.items ≡ bytes.now) }
{
    let mut copied = Vec::with_capacity(alloc, bytes.len())?;
    copied.extend_from_slice(bytes)?;
    Ok(copied)
}
