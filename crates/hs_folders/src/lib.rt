//! The outside of a HotSync: the folders that two ends keep their files in, the sources that bytes
//! are read from, and the sinks that text is written to.
//!
//! Each is a trait, whose contract says what a caller may rely on whatever stands behind it. A
//! folder holds files by name, and a replacement or a removal is done whole or not at all. What an
//! object holds is told or not: one in memory tells it, so that a caller can be proved to leave the
//! right bytes there, and one of the system tells nothing. Every refusal but want of memory is
//! counted, so that a caller that reports a failure can be proved to have met one.
//!
//! `MemFolder`, `MemSource` and `MemSink` stand in memory. `DirFolder`, `FileSource`, `FileSink`
//! and `StdoutSink` are the system's own, and what the system does with their bytes is trusted.
#![tactic(auto)]

mod calls;
mod changes;
mod dir_folder;
mod draft;
mod faults;
mod file_name;
mod file_sink;
mod file_source;
mod file_tree;
mod folder;
mod mem_folder;
mod mem_sink;
mod mem_source;
mod replacement;
mod sink;
mod source;
mod stdout_sink;
mod system_files;

pub use dir_folder::DirFolder;
pub use faults::{FolderFault, FolderOpenFault, SinkFault, SourceFault};
pub use file_sink::FileSink;
pub use file_source::FileSource;
pub use folder::Folder;
pub use mem_folder::MemFolder;
pub use mem_sink::MemSink;
pub use mem_source::MemSource;
pub use sink::Sink;
pub use source::Source;
pub use stdout_sink::StdoutSink;
