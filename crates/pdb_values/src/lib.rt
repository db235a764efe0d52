//! The values of Palm databases: names, record ids and categories, contents, records, resources,
//! heads, whole databases in memory, dates, and what a handheld knows of its user.
//!
//! The public sources are the Palm File Format Specification (Palm OS 3.5 and later) for databases, records,
//! resources and dates, and pilot-link's `pi-dlp.h` for the user's information and for dates on the wire.
#![tactic(auto)]

mod block;
mod bytes;
mod category;
mod civil;
mod content;
mod database;
mod date;
mod date_text;
mod four_cc;
mod head;
mod name;
mod named;
mod record;
mod record_id;
mod resource;
mod short;
mod slot;
mod stem;
mod user;

pub use bytes::Bytes;
pub use category::Category;
pub use content::{Content, TooLarge};
pub use database::{Database, PushFault};
pub use date::{BadDate, PalmDate};
pub use four_cc::FourCc;
pub use head::DbHead;
pub use name::{DbName, NameFault};
pub use named::{database_of, insert_database, place_of, put_database, remove_database};
pub use record::{Kind, Record};
pub use record_id::RecordId;
pub use resource::Resource;
pub use slot::{Slot, slot_for};
pub use user::{Marks, Password, UserInfo, UserName};
