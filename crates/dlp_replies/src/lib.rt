//! Replies of the Desktop Link Protocol: what a handheld answers in a HotSync.
//!
//! A reply is the function of its request with 0x80 set, the number of its arguments, an error, and the arguments, at most
//! one, whose data is a row of cells. The shape of each function's reply stands once, in the table `shape`. The public
//! source is pilot-link's `dlp.c` and `pi-dlp.h`.
#![tactic(auto)]

mod argument;
mod database;
mod entries;
mod entry;
mod entry_walk;
mod error_code;
mod fault;
mod frame;
mod ids;
mod laws;
mod list_frame;
mod lists;
mod reader;
mod record;
mod reply;
mod resource;
mod system;
mod user;
mod user_frame;
mod writer;

pub use entries::Entries;
pub use error_code::ErrorCode;
pub use fault::ReplyFault;
pub use ids::Ids;
pub use laws::{lists_are_exact, reply_round_trip};
pub use reader::read_reply;
pub use reply::Reply;
pub use writer::write_reply;
