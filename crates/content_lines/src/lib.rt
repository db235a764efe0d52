//! Content lines of vCard and iCalendar.
//!
//! A form of export is a list of properties, each a name and a value. Here are the values that a record of a Palm gives,
//! with their escapes, and the text of properties, each on a line, in physical lines of at most 75 octets. One text is that
//! of one list of properties. The public sources are RFC 2426 (sections 2.6 and 5) and RFC 5545 (sections 3.1 and 3.3.11).
#![tactic(auto)]

mod broken;
mod fold;
pub mod laws;
mod property;
mod record;
mod stem;
mod text;
mod value;

pub use broken::{AddressForm, Form, TaskForm, holds, refuse_broken};
pub use fold::push_line;
pub use property::Properties;
pub use stem::plain_stem;
pub use text::Text;
pub use value::push_escaped;
