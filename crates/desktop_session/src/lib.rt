//! The desktop's session as types: what may be sent when.
//!
//! A link is `Idle` until the handheld wakes it; `hello` makes it `Linked`, on which databases are listed, made, taken away and
//! opened. An open one is an `OpenDb`, which borrows the session until it is closed or abandoned; a record or a resource that it
//! lends borrows it in turn. So no command goes out before the greeting, while a record is lent, on a database that is not open,
//! or after the end. What was said is told in a session's own words, acts: `specs/Requests`. The public source is pilot-link's
//! `pi-dlp.h` and `dlp.c`.
#![tactic(auto)]

mod blocks;
mod databases;
mod ending;
mod fault;
mod greeting;
mod idle;
mod laws;
mod lent;
mod linked;
mod lists;
mod open_db;
mod order;
mod reading;
mod replies;
mod seat;
mod writing;

pub use ending::{Ended, Halted};
pub use fault::SessionFault;
pub use idle::Idle;
pub use laws::{
    acts_are_steps, first_handle_is_one, lent_ones_are_the_devices, lists_are_whole,
    open_ones_stay_open, refusals_are_the_last_reply, replies_tell,
};
pub use lent::{RecordLent, ResourceLent};
pub use linked::Linked;
pub use open_db::OpenDb;
pub use order::{
    databases_are_made, kept_lists_are_never_refused, kept_order_is_never_refused,
    possible_requests_are_answered, users_are_marked,
};
pub use seat::{UserWish, seat_for, unclaimed};
