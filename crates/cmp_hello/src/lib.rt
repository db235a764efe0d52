//! The greeting of the two ends of a HotSync: messages of the connection management protocol (CMP),
//! as pilot-link has it in `pi-cmp.h` and `cmp.c`.
//!
//! The handheld wakes the desktop and names the fastest rate that it can have. The desktop answers
//! with the rate that both will have, or aborts. Each greeting has ten bytes: `read_hello` takes
//! exactly these, and `write_hello` gives them. What they say is in `specs/HelloText.antt`.
#![tactic(auto)]

mod hello;
mod laws;

pub use hello::{HELLO_LEN, Hello, HelloFault, HelloKind, MAJOR_VERSION, read_hello, write_hello};
pub use laws::text_determines_hello;
