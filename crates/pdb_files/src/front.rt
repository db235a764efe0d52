//! The front of a file that breaks no rule: its header, and where its blocks begin.

ghost use Rattle.std.specs.Prelude.{◌≡◌, IfOk};
ghost use Rattle.pdb_files.specs.Faults.{Refuses, block_begins, file_fault};
ghost use Rattle.pdb_files.specs.Reading.{header_in};

use crate::blocks::{block_begins, check_blocks};
use crate::fault::FileFault;
use crate::header::Header;
use std::alloc::Global;

/// What a file says in front of its blocks.
#[derive(Drop)]
pub struct Front {
    /// Its header.
    pub header: Header,
    /// Where each block begins.
    pub begins: Vec<u32>,
}

impl Front {
    /// The front of a file, or the first rule of the format that its bytes break, of all of the rules.
    pub fn read(alloc: Global, bytes: &[u8]) -> Result<Front, FileFault>
        ensures header { IfOk result (λ front. front.header ≡ header_in bytes.now) }
        ensures begins { IfOk result (λ front. front.begins.items ≡ block_begins bytes.now) }
        ensures fault { Refuses result (file_fault bytes.now) }
    {
        let header = Header::read(bytes)?;
        let first = header.entries_end();
        if bytes.len() < first {
            return Err(FileFault::Short(bytes.len() as u64));
        }
        let begins = block_begins(alloc, &header, bytes)?;
        check_blocks(&begins, first, bytes.len())?;
        Ok(Front { header, begins })
    }
}
