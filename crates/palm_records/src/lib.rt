//! What stands in the records of a Palm's own applications.
//!
//! `until_zero` is the text of a memo and of each string, `category_label` the label that a database gives to a category
//! of its records. `read_address` and `read_task` give what a record says, lent from its bytes, or the place where it
//! breaks its form. The public sources are the Palm File Format Specification and pilot-link's `memo.h`, `address.h`,
//! `todo.h`, `datebook.c` and `pi-appinfo.h`.
//!
//! Of a database live records are exported, each under the label of its category. Private ones are, too, unless they are
//! not wanted. A record that is out of its form refuses the whole text, unless such records are to be kept in it as they
//! are (`BrokenRecords`).
//!
//! Each byte of a Palm's text stands for one character (`char_of`), and no two bytes for the same one. The public source is
//! the character set of Palm OS 3.5: Latin-1, with the letters and signs of Windows-1252 from 0x80 to 0x9F, where four
//! places have the suits of cards. Control bytes other than tab and line feed are shown by Unicode's control pictures, and
//! the four bytes above 0x7F that no letter or sign has by characters of private use: so no reader of the text takes one for
//! the end of a line, and none steers a terminal.
#![tactic(auto)]

mod address;
mod bad_record;
mod category;
mod character;
mod choice;
mod day;
mod fault;
mod label;
mod task;
mod text;
pub mod text_laws;

pub use address::{Address, FIELDS, read_address};
pub use bad_record::BadRecord;
pub use category::category_label;
pub use character::{char_of, push_text};
pub use choice::{BrokenRecords, Privacy, is_exported};
pub use day::{Day, day_in, days_in_month};
pub use fault::ExportFault;
pub use label::shown_label;
pub use task::{Task, read_task};
pub use text::{split_string, until_zero};
