//! The calls that only look: into a database file, or for packets in captured bytes, and an import in the categories of another
//! file, which is a call of its own; and the text of help, the word at fault of words that ask for nothing, and what a handheld
//! served.
#![tactic(auto)]

mod bad_file;
mod docking;
mod exported;
mod help;
mod help_text;
mod imported;
mod install_file;
mod joint_fault;
mod liked;
mod liked_program;
mod look;
mod misuse;
mod packets;
mod served;
mod traced;

pub use docking::docking_fault;
pub use help::print_help;
pub use install_file::read_install_file;
pub use joint_fault::word_at_fault;
pub use liked::import_like;
pub use liked_program::{asks_liking, import_on_system};
pub use look::look_at;
pub use misuse::print_misuse;
pub use packets::print_packets;
pub use served::print_served;
