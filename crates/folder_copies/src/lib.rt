//! What a folder holds, copied into memory: a copy answers as the folder would, and a change of the
//! copy is none of the folder.
#![tactic(auto)]

mod copied_folder;
mod copy;

pub use copied_folder::CopiedFolder;
pub use copy::copy_folder;
