//! A handheld's folder, kept in memory: all its databases and its user.
//!
//! A `Store` holds a folder, the databases and the user that it stands for. It lends one database for
//! one command, as an `OpenBase`, and inside it one record, as a `RecordMut`, so that a command can't
//! touch what it wasn't given. What is lent is a second one of the database: it takes its place where
//! it is kept, once its file is replaced, and only where it is another one. A single record is written
//! without that, where it stands, and put back where the file fails. So after a folder's failure
//! or want of memory the store still holds what its folder stands for. It is not sound any more then,
//! and only hands its folder back.
//!
//! The files are those of the Palm File Format Specification, and an information file of this program's
//! own.
#![tactic(auto)]

mod copies;
mod fault;
mod files;
mod index;
mod lent;
mod loan;
mod named;
mod new_id;
mod placed;
mod store;
mod writing;

pub use fault::StoreFault;
pub use handheld_files::OpenFault;
pub use lent::{LentDatabase, RecordMut};
pub use loan::{Loan, OpenBase};
pub use store::Store;
