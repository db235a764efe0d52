//! Messages of the Desktop Link Protocol: the functions, the arguments, and the layouts of the data in them.
//!
//! A message is a list of at most 65,535 bytes. Its arguments stand one after the other, each as a header with an id
//! and a size, and then so many bytes. There are three forms of header, for sizes of one, two and four bytes. The data of
//! an argument is a row of cells: big-endian numbers, bytes that are not looked at, runs of bytes, and texts or data up to
//! the end. Each kind of cell has one reader here, which takes it from the front of bytes. Messages of one argument are
//! put together by `put`. The public source is pilot-link's `dlp.c` and `pi-dlp.h` (tiny, short and long arguments).
#![tactic(auto)]

mod args;
mod argument;
mod fault;
mod function;
mod laws;
mod layout_laws;
mod message;
mod message_text;
mod number;
mod one_argument;
mod reader;
mod tail;
mod text;
mod writer;

pub use args::{Arg, ArgIter, Args};
pub use fault::ArgFault;
pub use function::Function;
pub use laws::round_trip;
pub use layout_laws::layouts_are_exact;
pub use message::Message;
pub use message_text::MessageText;
pub use number::{take_4, take_8, take_u8, take_u16, take_u32};
pub use one_argument::{append, append_header, begin, put};
pub use reader::read_args;
pub use tail::{counted_of, end_of, rest_of};
pub use text::{maybe_text_of, names_of, short_text_of, text_of};
pub use writer::write_arg;
