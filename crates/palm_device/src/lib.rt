//! A handheld as a HotSync sees it: databases by name, what it knows of its user, and the handles under which databases
//! are open; and what each operation makes of a database.
//!
//! The definitions are in `specs`: a device in `Devices`, its handles in `Handles`, what becomes of records, resources and
//! blocks in `Records`, `Resources` and `Blocks`, the ids of records in `FreshIds`. The public sources are pilot-link's
//! `pi-dlp.h` and the Palm File Format Specification.
#![tactic(auto)]

mod block;
mod edit;
mod handles;
mod head;
mod kept;
mod opened;
mod record;
mod resource;

pub use block::{entry_count, put_app, put_sort, set_app, set_sort};
pub use edit::{Edit, apply};
pub use handles::Handles;
pub use head::{has_bit, new_head};
pub use kept::Kept;
pub use opened::Opened;
pub use record::{
    clear_records, given_id, keep_records, move_category, next_changed, place_of_id, purge_record,
    put_record, reset_flags, set_record,
};
pub use resource::{clear_resources, place_of_resource, purge_resource, put_resource};
