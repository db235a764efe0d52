//! The addresses of a database as cards for other programs.
//!
//! `cards_text` is the text of the addresses of a database in vCard 3.0: a card for each live record, with its names,
//! phones, postal address, custom fields, note, the label of its category, and whether it is private. One text is that of
//! one list of cards. A record that is out of its form refuses the text, or stands in it with its bytes. The public sources
//! are RFC 2426, the Palm File Format Specification and pilot-link's `address.h`.
#![tactic(auto)]

mod card;
mod custom;
mod export;
mod field;
mod label;
pub mod laws;
mod name;
mod person;
mod phone;
mod place;

pub use export::cards_text;
pub use label::custom_label;
