//! A database of a file is installed on a handheld, and a handheld's databases are backed up into files, over any link.
#![tactic(auto)]

mod backing_up;
mod copying;
mod entries;
mod greeting;
mod installing;
mod keeping;
mod laws;
mod live;
mod many;
mod mark;
mod moved;
mod whole_backup;
mod whole_install;

pub use backing_up::backup_one;
pub use installing::install;
pub use keeping::backup_all;
pub use laws::{
    backups_change_nothing, backups_keep_their_order, copies_are_the_devices, databases_go,
    installed_databases_are_databases, installs_are_read_next, installs_arrive, installs_come_back,
    installs_come_in_turn, installs_keep_their_order, others_stay, resources_are_put_in_turn,
    what_is_written_is_there,
};
pub use many::install_all;
pub use mark::{Mark, install_mark, restore_mark};
pub use moved::{MoveOutcome, Moved};
pub use whole_backup::backup_session;
pub use whole_install::install_session;
