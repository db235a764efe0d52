//! Requests of the Desktop Link Protocol: what a desktop asks of a handheld in a HotSync.
//!
//! A request is a function, the number of its arguments, and the arguments, at most one, whose data is a row of cells.
//! The layout of each function stands once, in the table `layout`. The public source is pilot-link's `dlp.c` and
//! `pi-dlp.h`.
#![tactic(auto)]

mod database;
mod fault;
mod laws;
mod reader;
mod record;
mod request;
mod resource;
mod session;
mod writer;

pub use fault::RequestFault;
pub use laws::{request_round_trip, short_requests_fit};
pub use reader::read_request;
pub use request::Request;
pub use writer::write_request;
