//! The words of a command line: which are in the form, what they ask for, and which of them is at fault where they ask for
//! nothing.
//!
//! The first word is the command: `run HANDHELD DESKTOP --date=D [--script=F] [--trace=F] [--only=L] [--slow] [--actions=L]
//! [--user=NAME] [--add-user] [--dry-run]`, `check FILE`, `show FILE [--records]`, `export FILE --as=FORM [--date=D] [--without-private] [--keep-broken] [--raw]`,
//! `import FILE --as=txt`, `verify FILE`, `picture FILE`, `packet HEX`, `make SEED N`,
//! `install HANDHELD FILE [--trace=F]`, `backup` or `restore HANDHELD FOLDER [--script=F] [--trace=F]`,
//! `device HANDHELD --in=F --out=F` or `categories HANDHELD DESKTOP [--script=F] [--trace=F]`; and `sync PORT DESKTOP
//! --date=D [--only=L] [--trace=F] [--slow] [--actions=L] [--user=NAME] [--add-user]`, the same as `run --port=PORT DESKTOP ..`,
//! `backup --port=PORT FOLDER [--trace=F]`, `device HANDHELD --port=PORT [--trace=F]` and `import FILE --as=txt --like=FILE`,
//! which have calls of their own. `help [COMMAND]`, `--help`, `-h`, `COMMAND .. --help`, `--version` and `-V` ask for help. The form of the words behind a command is a table, and they
//! stand in any order. A plain word is not empty and does not begin with `-`. A date is written, or it is `now`, the date
//! that the caller hands over. No call takes memory but for the list of actions.
#![tactic(auto)]

mod action;
mod action_list;
mod between;
mod cable;
mod capture;
mod choice;
mod command;
mod dock;
mod fault;
mod form;
mod hexadecimal;
mod like;
mod look;
mod number;
mod only;
mod ported;
mod reading;
mod run;
mod spoken;
mod stem;
mod tables;
mod topic;
mod user;
mod word;

pub use action::{ActionWord, NamedAction, Target, action_of};
pub use action_list::{is_actions, read_actions};
pub use between::BetweenWords;
pub use cable::{CableWords, cable_in, is_sync, ported_run_in, sync_words};
pub use capture::CaptureWords;
pub use choice::ChoiceWords;
pub use command::{Command, MakeWords, PacketWords, command_in, command_of, deed_of};
pub use dock::{DockWords, dock_in, docking_words, is_docking};
pub use fault::{FaultKind, WordFault, fault_of};
pub use form::{FormOption, WordForm, name_of, option_named};
pub use hexadecimal::hex_digits;
pub use like::{LikeWords, is_liking, like_in, liking_words};
pub use look::{Export, ExportForm, ImportForm, Look, LookWords, export_form_in, import_form_in};
pub use number::{count_in, number_in};
pub use only::{cable_actions, only_these_are_touched, run_actions};
pub use ported::{PortedWords, ported_in, ported_words};
pub use reading::Reading;
pub use run::{RunWords, date_in};
pub use spoken::{Spoken, names_port};
pub use tables::{CABLE, DOCK, IMPORT, PORTED, PORTED_RUN, form_behind};
pub use topic::{CommandWord, Topic, command_named, command_word, help_of};
pub use user::{user_in, wished_name};
