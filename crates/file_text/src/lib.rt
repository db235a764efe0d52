//! Palm databases as text, for people who look into their files.
//!
//! `check_text` is one line with the number of a database's entries. `show_text` is its name, type, dates and blocks,
//! and then a line for each entry; `full_text` has in these lines the bytes of the entries, too. The values are those that `pdb_files` reads from a file: the public source of their
//! meaning is the Palm File Format Specification.
#![tactic(auto)]

mod count;
mod entries;
mod escaped;
mod field;
mod head;
pub mod laws;
mod listing;

pub use count::{check_text, counted_text};
pub use listing::{full_text, show_text};
