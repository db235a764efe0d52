//! The memos of a database as a text, and a memo database of such a text.
//!
//! `memos_text` is the text of the memos of a database: a head line for each live record, with its id, whether it is private
//! and the label of its category, and then the lines of the memo. One text is that of one list of memos. `import_memos`
//! gives the database of a text, or tells the first line that is out of its form, and where and how. The public sources are the Palm File
//! Format Specification and pilot-link's `memo.h` and `pi-appinfo.h`.
#![tactic(auto)]

mod app_block;
mod category;
mod character;
mod database;
mod draft;
mod export;
mod export_head;
pub mod export_laws;
mod export_lines;
mod export_memo;
mod fault;
mod head_line;
mod import;
mod label;
pub mod laws;
mod line;
mod memo;
mod memo_text;
mod reading;

pub use character::byte_of;
pub use export::memos_text;
pub use fault::{Flaw, ImportFault, LineFlaw};
pub use import::import_memos;
