//! The words of a command line, read by `clap`: by one simple command, made from the form of the words.
//!
//! Which words are in the form says `run_words`. What words in the form ask for is read out of the matches of `clap`, which
//! refuses them only for want of memory: a `Matched` gives of every name of the form what the words give of it, whatever the
//! form is.
#![tactic(auto)]

mod argument;
mod form;
mod matched;
mod read;

pub use matched::{Matched, WordsFault, read_form};
pub use read::{read_command, read_docking, read_liking, read_ported, read_sync};
pub use run_words::{
    BetweenWords, CaptureWords, ChoiceWords, Command, Export, ExportForm, ImportForm, Look,
    LookWords, MakeWords, PacketWords, RunWords, Topic,
};
