//! What stands behind a cable: a port, over which bytes go and come.
//!
//! `Port` is a trait, whose contract says what a caller may rely on whatever stands behind it. A read
//! that brings nothing is a tick of silence: the port waits for as long as it was set to, and the
//! program needs no clock. `MemPort` stands in memory and tells all that it gave and took; `PalmPort` has
//! a handheld behind it, in memory, and a cable that loses packets, and tells what stands there;
//! `TtyPort` is a terminal of the system, which tells nothing, and what the system does with its bytes
//! is trusted.
#![tactic(auto)]

mod calls;
mod clock;
mod coming;
mod cradle;
mod handheld;
mod losses;
mod mem_port;
mod palm_port;
mod port;
mod port_fault;
mod room;
mod tty_port;
mod way;

pub use losses::Losses;
pub use mem_port::MemPort;
pub use palm_port::PalmPort;
pub use port::Port;
pub use port_fault::PortFault;
pub use tty_port::TtyPort;
