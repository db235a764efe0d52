//! The databases of a folder of backups, taken by what its files hold.
//!
//! Every file whose name ends in `.pdb` or `.prc`, in letters of either case, is one of a database, whatever else its name says:
//! another program may have written it. Which database it holds its bytes say, as in the Palm File Format Specification. Two
//! files with databases of one name are no folder of backups; other files are not read.
#![tactic(auto)]

mod adding;
mod fault;
mod found;
mod name;
mod reading;

pub use fault::BackupFault;
pub use reading::read_backups;
