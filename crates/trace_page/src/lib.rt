//! A trace of the line as one page that a browser shows, without a script and with nothing loaded from elsewhere.
//!
//! `page_text` gives a row for each frame: an arrow between two life lines, what the frame bears, by the names of the
//! functions, what the line did with it, how often it was sent, and its line of the trace. Which frames are shown is
//! switched by the style sheet alone. The page is this program's own; `specs/Pages.antt` says it byte by byte, and
//! `specs/Promises.antt` what holds of each page.
#![tactic(auto)]

mod bearing;
mod heading;
mod laws;
mod line;
mod name;
mod page;
mod row;
mod seen;
mod sheet;

pub use laws::{a_page_holds_its_trace, a_page_is_of_one_trace, pages_need_no_escape};
pub use page::page_text;
