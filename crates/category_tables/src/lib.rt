//! The categories of a Palm's database as tables, and the merge of two of them.
//!
//! A table is the first 276 bytes of an app block: which categories were renamed, 16 labels, 16 ids, and the last id that
//! was given (Palm File Format Specification; pilot-link's `pi-appinfo.h`). `read_table` and `write_table` take it from
//! bytes and back. `merge` gives the table that a handheld and a desktop have once their categories are brought together,
//! and the number that each of the desktop's numbers has in it. `file_like` gives a database the categories of another file.
#![tactic(auto)]

pub mod laws;
mod like;
mod like_block;
mod like_fault;
mod liking;
mod merge_tables;
mod merging;
mod place;
mod read;
mod table;
mod write;

pub use like::file_like;
pub use like_fault::LikeFault;
pub use merge_tables::merge;
pub use read::read_table;
pub use table::{Entry, Table};
pub use write::write_table;
