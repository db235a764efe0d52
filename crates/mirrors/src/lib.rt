//! A mirror's requests: a database of the handheld is read into a view, and a plan is carried out on it.
//!
//! A slow reading reads the whole database: it asks for each record by its index. A fast one reads, of what both sides
//! have had since their last synchronisation, only what changed: the handheld lists the ids of its records and lends the
//! changed ones. Of the others those that the base has no row of are read by their ids; any other one is unread, as the
//! base has it.
//!
//! A plan is carried out in two steps, between which the desktop commits: first what both sides keep and the handheld
//! lacks, then what goes. The public source of the requests is pilot-link's `pi-dlp.h` and `dlp.c`.
#![tactic(auto)]

mod agreement;
mod changed;
mod entry;
mod laws;
mod list;
mod order;
mod others;
mod reading;
mod rows;
mod slow_laws;
mod slow_list;
mod slow_reading;
mod writing;

pub use agreement::agree;
pub use laws::{fast_readings_are_planned_as_slow_ones, fast_readings_show_the_records};
pub use order::in_order;
pub use reading::read_fast;
pub use slow_laws::{
    what_is_asked_can_be_said, what_is_sent_is_carried_out, whole_readings_show_the_records,
};
pub use slow_reading::read_slowly;
pub use writing::{purge_side, send_news};
