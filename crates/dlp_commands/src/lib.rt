//! What the requests of the Desktop Link Protocol do to a handheld, and the link over which they go.
//!
//! The table of the functions is in `specs`, each function once, with its errors in their order and then its effect: those on
//! the user and the system in `UserFunctions`, on databases and handles in `DatabaseFunctions`; what a handle leads to is in `Reached`, what is
//! read of its database in `Readings`, what is written into it in `Writings`. `DeviceSteps` makes of them what a message does to
//! a device, `DeviceRuns` what several do. A `Link` is a device behind a line. The public source is pilot-link's `pi-dlp.h` and
//! `dlp.c`.
//!
//! What every program that is a device shares is here too: what a request asks of the database of its handle, as a `Reading` or a
//! `Writing`; what a `Reading` finds there, the `Edit` that a `Writing` plans, and how replies and errors are written.
#![tactic(auto)]

mod block;
mod holds;
mod laws;
mod link;
mod listing;
mod reading;
mod record;
mod refusal;
mod reply;
mod resource;
mod system;
mod user;
mod writing;

pub use dlp_args::{Message, MessageText};
pub use dlp_replies::{Entries, ErrorCode, Ids, Reply, ReplyFault, read_reply, write_reply};
pub use dlp_requests::{Request, RequestFault, read_request, write_request};
pub use holds::Holds;
pub use laws::{
    bounds_stay, end_of_sync_closes_all, first_byte_tells_changes, given_ids_append,
    only_the_target_changes, reading_keeps_databases, refused_changes_nothing, replies_are_read,
    runs_append, soundness_stays, step_is_determined,
};
pub use link::{Link, LinkFault};
pub use listing::{is_writable, listed, more_flag, named};
pub use palm_device::Edit;
pub use reading::Reading;
pub use record::next_record;
pub use refusal::Refusal;
pub use reply::{first_byte, put_done, put_fault, put_listed, put_refusal, put_reply};
pub use system::system_reply;
pub use user::{UserMarks, marked, user_reply};
pub use writing::Writing;
