//! Traces of the line: they are read back, and what makes one proper is said by itself.
//!
//! `read_trace` takes exactly the texts that `write_trace` of `trace_text` gives: a line `NUMBER END FATE MARK HEX` for each
//! frame, ended by a line feed, with the numbers from 1 on, a fate that a script may give or `ok`, and 1 to 1,040 bytes. The
//! format is this program's own.
//!
//! A trace is proper by the fates and the messages that its own frames say (`specs/Judging.antt`), which is that it keeps
//! the seven rules of `Rule`. So is the trace of every run, whatever its line did. `verdict` tests the rules in their order,
//! each frame a few times and never the whole past: it calls a trace proper exactly where it is, and else names the first
//! rule that is broken.
#![tactic(auto)]

mod acking;
mod bearing;
mod both;
mod came;
mod ending;
mod fate;
mod fault;
mod frame;
mod judge;
mod laws;
mod notice;
mod ordering;
mod reader;
mod repeats;
mod rule;
mod sent;
mod side;
mod speaker;
mod standing;
mod talking;
mod turns;
mod word;

pub use fault::TraceFault;
pub use judge::verdict;
pub use laws::{
    a_text_is_one_trace, a_trace_has_one_verdict, a_trace_speaks_for_itself,
    a_written_trace_is_read, the_rules_are_the_definition,
};
pub use reader::{MOST_BYTES, read_trace};
pub use rule::{Rule, Verdict};
