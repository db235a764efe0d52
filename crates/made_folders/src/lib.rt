//! Folders of a handheld and a desktop, made in memory of a seed and a count.
//!
//! For each number from 1 up to the count the generator PCG32 (XSH RR 64/32) draws a word. It says what was changed
//! since the last synchronization: nothing, the handheld's record, the desktop's row, or which side made or lost it. What
//! a synchronization makes of such folders is a law here: it follows from the kinds of their items.
#![tactic(auto)]

mod folders;
mod item;
mod laws;
mod record;
mod side;

pub use folders::{MadeFolders, make_folders};
pub use item::{Item, make_items};
pub use laws::made_folders_merge_by_kinds;
pub use side::{MadeSide, make_database};
