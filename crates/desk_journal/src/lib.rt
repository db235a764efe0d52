//! The journal of a desktop: a change of several of its files is whole, also where the power goes in the middle.
//!
//! Before a change touches a file, a journal is written that holds each new file whole. From then on the folder stands for
//! the files that the journal says, whatever it has of them already; who opens it next finishes the journal. Once each file
//! is replaced, the journal is removed.
//!
//! The journal is this program's own file, `hotsync.journal`. Its numbers are big-endian:
//!
//! ```text
//! HSJ1, the number of entries (2 bytes)
//! for each entry: the length of the name (1), the name, the length of the bytes (4), the bytes
//! ```
#![tactic(auto)]

mod bad_journal;
mod change;
mod commit;
mod entry;
mod entry_reader;
mod fault;
mod finish;
mod folder;
mod reader;
mod writer;

pub use bad_journal::BadJournal;
pub use commit::commit_files;
pub use entry::Entry;
pub use fault::JournalFault;
pub use finish::finish_journal;
pub use reader::read_journal;
pub use writer::write_journal;
