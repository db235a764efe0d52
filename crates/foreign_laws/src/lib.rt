//! A handheld of another make as a relation (`specs/Foreign.antt`), and what a session over it comes to: the same as
//! over our own device, where no request was refused. There is no code.
//!
//! Such a handheld keeps what ours keeps. It lists its databases under indices with gaps, in an order of its own and as
//! many a reply as it likes; it opens them under any handle, replies with as many ids as it likes, may cut a record
//! short, and may refuse any request. What ends over it ends with the same answer over our own device
//! (`specs/Twins.antt`), and leaves that as the handheld's device is then; so does a whole session
//! (`specs/Sessions.antt`).
#![tactic(auto)]

pub mod laws;
pub mod request_laws;
pub mod session_laws;
