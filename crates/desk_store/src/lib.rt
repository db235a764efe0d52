//! A desktop's folder: for each user a slot with databases of its own, of each database the rows, the base rows and the
//! archive, the marks that say when the user was synchronized last, and the databases that took no part then.
//!
//! For each database a slot keeps up to three files of the Palm File Format Specification: `STEM.pdb` holds the rows,
//! `STEM.base` what the last synchronization left on both sides, `STEM.arc` what was archived. The files of slot 0 have
//! these names, those of slot 1 have `s1.` in front, and so on up to slot 15. The marks of all slots, and their databases
//! that took no part, stand in `desktop.inf`, and a change that is being carried out in `hotsync.journal`. Other files are
//! not looked at.
//!
//! Opening a folder finishes the journal of an earlier change and reads every file that a desktop keeps. One slot is picked:
//! the calls speak of it, and a change of its marks and databases is committed as a whole. At each moment the folder stands
//! for the desktop before the change or for the one after it, and no other slot changes.
#![tactic(auto)]

mod bearing;
mod bounds;
mod change;
mod commit;
mod desk;
mod entries;
mod fault;
mod file;
mod file_fault;
mod found;
mod opening;
mod reader;
mod reading;
mod role;
mod shelves;
mod slot;

pub use change::{DbChange, DeskChange};
pub use desk::Desk;
pub use fault::{CommitFault, DeskOpenFault};
pub use file::DeskFile;
pub use file_fault::{BadDeskFile, DeskFileFault};
pub use reader::read_desk_file;
pub use role::Role;
