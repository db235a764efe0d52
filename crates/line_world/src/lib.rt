//! Both ends of a session over a line that a script disturbs: the handheld's server and the desktop's link, with frames
//! between them that are lost, damaged or late.
//!
//! A `World` is a `Link`. Each request goes over the line to the handheld, is served there once, when it is whole, and its
//! reply goes back; whatever the line does meanwhile is made good by sending again, or ends the run with its cause.
#![tactic(auto)]

mod conversing;
mod down;
mod given;
mod link;
mod log;
mod serving;
mod stop;
mod world;

pub use down::Down;
pub use log::LineLog;
pub use world::World;
