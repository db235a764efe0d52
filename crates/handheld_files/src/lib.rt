//! The files of a handheld's folder, and the databases and the user that they stand for.
//!
//! A handheld keeps each database of records in a `.pdb` file and each of resources in a `.prc` file, named for it, and
//! what it knows of its user in `device.inf`. Databases are files of the Palm File Format Specification; the names of the
//! files, and the ids that records without one of their own get, are this program's own.
#![tactic(auto)]

mod fault;
mod fresh;
mod handheld;
mod reading;
mod settling;

pub use fault::OpenFault;
pub use handheld::Handheld;
pub use reading::read_folder;
pub use settling::settle;
