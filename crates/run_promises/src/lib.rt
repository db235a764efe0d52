//! What is promised of calls of `hotsync`, as laws over what the contract of that call says. There is no code, and no
//! program stands on these.
//!
//! A call is one record: its words, its objects before and after it, and what it answered (`specs/Calls.antt`, and for a
//! run `specs/Headline.antt`, which is the page of each single run whose session began). Then come runs one behind another
//! (`specs/Again.antt`), a database over many runs with edits between them (`specs/Lives.antt`), categories that are
//! brought together twice (`specs/FilingCalls.antt`), and what the promises of the other commands are made of
//! (`specs/Promises.antt`).
#![tactic(auto)]

pub mod promises;
