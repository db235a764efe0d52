//! Databases of a Palm's own applications as iCalendar objects.
//!
//! `tasks_text` is the text of the tasks of a To Do list, a VTODO for each live record, and `dates_text` that of the dates
//! of the Date Book, a VEVENT for each. One text is that of one list of them. The public sources are RFC 5545 for the
//! text, and the Palm File Format Specification and pilot-link's `todo.h` and `datebook.h` for the records.
#![tactic(auto)]

mod component;
mod date;
mod export;
pub mod kind;
pub mod laws;
mod moment;
mod rule;
mod task;

pub use export::{dates_text, tasks_text};
