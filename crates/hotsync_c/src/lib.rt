//! The readers of this repository for C: pure functions over bytes that the caller lends for the call.
//!
//! Each export makes a call of another crate of this repository and has its contract. A result that is a text or a file
//! goes into room that the caller brings, as far as it fits, and the answer is how long it is, so that the call can be made
//! again with more room. Nothing outlives a call, and no export reaches a file, a terminal or a clock. `include/hotsync.h`
//! declares the functions for C; a slice is a pointer and then a length there, and the allocator is no parameter.
#![tactic(auto)]

mod build;
mod entries;
mod entry;
mod export;
mod file;
mod fit;
mod handheld;
mod import;
mod laws;
mod merge;
mod merge_refusal;
mod name;
mod packets;
mod parts;
mod refusal;
mod room;
mod sides;
mod trace;
mod version;
mod why;

pub use build::hs_build;
pub use entries::hs_entries;
pub use entry::{hs_entry, hs_head};
pub use export::{HsBadRecord, hs_export};
pub use file::{hs_check, hs_show};
pub use handheld::{HsTold, hs_device_files, hs_device_new, hs_device_take};
pub use import::hs_import;
pub use laws::parts_build_the_same_file;
pub use merge::{HsEnds, HsHow, hs_merge};
pub use name::hs_name;
pub use packets::hs_packets;
pub use parts::{HsEntry, HsHead};
pub use trace::{hs_picture, hs_verify};
pub use version::hs_version;
pub use why::hs_why;
