//! A handheld as bytes in its caller's memory: the files of its folder, what its talk holds beside them, and the bytes of a
//! packet that isn't whole yet. A call takes such bytes and gives the next ones, so that a handheld can be kept, copied and
//! compared, and is thrown away as any bytes are.
//!
//! ```text
//! let step = new_state(alloc, &list)?;                       // its wake is step.said
//! let step = next_state(alloc, &step.state, &from_desktop)?; // what it answers is step.said
//! let list = files_in(alloc, &step.state)?;                  // its files as they are now
//! ```
//!
//! A folder's files lie one behind the other:
//!
//! ```text
//! a string: its length (8 bytes, the highest first), its bytes
//! a file: its name, a string in UTF-8; its bytes, a string
//! a list: each file behind the one before, up to the end; no name stands twice
//! ```
//!
//! What a talk holds beside them:
//!
//! ```text
//! a talk:          four parts, one behind the other; the first three are strings behind their lengths
//!   the numbers    18 bytes, below
//!   what came      the bytes of the message that comes, as far as they were taken
//!   what is sent   the message that is sent
//!   the handles    a string for each handle from 1 to 8: no byte where nothing is open, else the mode,
//!                  the record index in two bytes, and the name
//!
//! the numbers, those of two bytes with the high one first:
//!   the receiver   a mark and the transaction that it awaits; the length of the message that comes, in
//!                  two bytes; how many pieces of it were taken; a mark and the key of the last piece: its
//!                  transaction, its flags, and its size in two bytes
//!   the sender     its transaction; the length of its message, in two bytes; how many pieces of it are
//!                  acknowledged; how often the next one was sent
//!   the talk       how many requests were performed; 1 once the init came; 0 while it goes on, 1 where it
//!                  ended, 2 where the other end ended it, and 3 where the first message was no init
//! ```
//!
//! A mark is 1 where there is something, and 0 where zeros stand in its place. `push_talk` writes this form, and
//! `read_talk` reads it: one talk has one text, and what is no text of a talk is refused.
#![tactic(auto)]

mod calls;
mod fault;
mod files;
mod handles;
mod hearing;
mod laws;
mod list_laws;
mod numbers;
mod opened;
mod state;
mod strings;
mod talk;
mod talk_laws;

pub use calls::{Step, files_in, new_state, next_state};
pub use fault::StateFault;
pub use laws::{a_state_is_one_handheld, pieces_are_heard_as_one};
pub use list_laws::{
    a_folder_in_memory_is_a_list, a_list_determines_its_files, a_list_is_read_again,
    a_list_says_what_is_held, a_string_determines_its_end,
};
pub use talk_laws::a_text_determines_its_talk;
