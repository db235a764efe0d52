//! The handheld's end of a HotSync over a folder: each request is one step of the device that the
//! folder stands for, and its file is kept before its reply is there.
//!
//! A `Server` keeps a `Store` and the handles of open databases. Each function of the Desktop Link
//! Protocol reads one of the store's databases, or writes into one that the store lends it. What a
//! request does is `dlp_commands`' definition of a device step.
//!
//! A request is said over a link to it so:
//!
//! ```text
//! let mut asked = Message::new(alloc)?;
//! let _whole = asked.push(request);
//! let mut link = ServerLink::new(alloc, server);
//! let said = match link.hello() {
//!     Ok(_) => match link.exchange(&asked, reply) {
//!         Ok(()) => None,
//! ```
#![tactic(auto)]

mod change;
mod exchanged;
mod fault;
mod quiet;
mod server;
mod server_link;
mod written;

pub use fault::ServeFault;
pub use server::Server;
pub use server_link::ServerLink;
