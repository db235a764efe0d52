//! Palm database files as bytes: PDB files of records, PRC files of resources, and why bytes are neither.
//!
//! A file is a header of 78 bytes, one entry for each record or resource, filler, and the blocks: the app block and the
//! sort block, where they are there, and the data of each entry in order. All numbers are big-endian. The public source
//! is the Palm File Format Specification (Palm OS 3.5 and later), chapters "Palm Database (PDB) file format" and "Palm
//! Resource (PRC) file format"; pilot-link's `pi-file.c` reads and writes the same files.
//!
//! Bytes are read so, and a database is written so (`hotsync_c` has these lines); a refusal says the first rule that the
//! bytes break, and where:
//!
//! ```text
//! match read_database(alloc, file) {
//!     Ok(database) => Ok(database),
//!     Err(fault) => Err(Refusal::of(fault)),
//! }
//!
//! let file = write_database(alloc, &database)?;
//! ```
#![tactic(auto)]

mod bad_kind;
mod blocks;
mod count;
mod entry;
mod fault;
mod field;
mod front;
mod header;
mod laws;
mod reader;
mod writer;

pub use bad_kind::BadKind;
pub use count::{FileCount, count_entries};
pub use entry::attributes_of;
pub use fault::FileFault;
pub use laws::{one_database, round_trip, rules_are_the_grammar};
pub use reader::read_database;
pub use writer::{entry_count, write_database};
