//! Line scripts: what a line does with each frame of a run.
//!
//! A script is text in lines, each ended by a line feed, which the last one may lack. A line is `NUMBER FATE`: the number of
//! a frame, and what becomes of it. Frames are numbered from 1 on in the order of sending over both ends. A line's number is
//! greater than the one on the line before, is at most 4,294,967,295 and has no leading zero. A frame that no line names
//! goes through untouched.
//!
//! | Fate | What it does |
//! |---|---|
//! | `lost` | nothing arrives |
//! | `late` | it arrives once the line was silent |
//! | `cut K` | the first K bytes arrive, modulo its length |
//! | `hit P HEX` | it arrives with one to eight bytes, the first not 00, xored over its own from place P on, modulo its length |
//! | `noise HEX` | 1 to 1,040 bytes arrive by themselves, and then the frame |
//! | `unplug` | nothing arrives, and the run ends |
//! | `abort` | nothing arrives, and the run ends with an abort packet in its place |
//!
//! K and P are decimal from 0 to 65,535 without leading zeros, HEX is hexadecimal of lower case. The format is this program's
//! own.
#![tactic(auto)]

mod fate;
mod fault;
mod laws;
mod line;
mod reader;
mod script;
mod word;

pub use fault::ScriptFault;
pub use laws::a_text_has_one_reading;
pub use reader::{MOST_LINES, read_script};
pub use script::{Rule, Script};
