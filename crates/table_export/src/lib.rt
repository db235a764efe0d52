//! The addresses and the tasks of a database as tables for spreadsheets and other programs.
//!
//! `addresses_table` and `tasks_table` are the text of a table in CSV (RFC 4180): a head line with the names of the columns,
//! and a line for each record that is exported, with its id, whether it is private, the label of its category, and what it
//! says. A field that a spreadsheet takes for a formula has a mark in front where that is wanted. A record that is out of its form refuses the text, or stands in it with its bytes. The public sources of the
//! records are the Palm File Format Specification and pilot-link's `address.h` and `todo.h`.
#![tactic(auto)]

mod address;
mod csv_row;
mod export;
mod field;
mod head;
mod item;
mod kind;
pub mod laws;
mod mark;
mod task;

pub use export::{addresses_table, tasks_table};
pub use kind::Marks;
