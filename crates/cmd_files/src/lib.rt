//! The commands that move databases between a handheld and files, and the one that is a handheld: each as one call. The database
//! of a file is installed on a handheld, a handheld's databases are backed up into files, the files of a folder are
//! restored on a handheld, and a handheld's end alone answers captured bytes.
//!
//! The words of a command, a handheld's folder, a folder for files and the streams beside them go in; the status, a report and
//! both folders come out. What comes before the session is judged in a fixed order, and a refusal changes nothing.
#![tactic(auto)]

mod backup;
mod backup_talk;
mod backups;
mod emulation;
mod install;
mod load_talk;
mod made_folder;
mod moved;
mod restore;

pub use backup::backup_folder;
pub use emulation::emulate;
pub use install::install_file;
pub use made_folder::MadeFolder;
pub use moved::{Way, moves_told};
pub use restore::restore_folder;
