//! The files in a handheld's folder and in a desktop's: their names, and the information files of both ends.
//!
//! A database of records stands in `STEM.pdb`, one of resources in `STEM.prc`, where STEM is the stem of its name: letters,
//! digits, `_` and `-` stand for themselves, each other byte is `%` with two upper-case hexadecimal digits. A desktop keeps
//! the base rows of a database in `STEM.base` and its archive in `STEM.arc`. The endings `.pdb` and `.prc` are those of the
//! Palm File Format Specification; the other names are this program's own.
//!
//! A desktop has up to sixteen slots, one for each user. The files of slot 0 have these names; those of another slot have
//! `s`, the number of the slot in decimal and a dot in front.
//!
//! `device.inf` is what a handheld knows of its user, `desktop.inf` what a desktop knows of the handhelds that it
//! synchronized with. Both are text in lines, each with a key and ended by a line feed. Numbers stand in eight hexadecimal
//! digits of lower case, dates in the sixteen of their eight bytes on the wire, whose last byte is zero, and names and
//! passwords in the two digits of each of their bytes, or as `-` where there are none. The files are this program's own; the
//! values are those of pilot-link's `pi-dlp.h`, as `pdb_values` has them.
//!
//! ```text
//! hotsync-device 1            hotsync-desktop 2
//! user 0000002a               pc 00000001
//! viewer 00000000             slots 2
//! pc 00000001                 slot 0 user 0000002a last 07d10909012e2800 name 4a616e65
//! good 07d10909012e2800       slot 1 user 0000002b last 0000000000000000 name -
//! last 07d10909012e2800
//! name 4a616e65
//! password -
//! ```
//!
//! Where databases took no part in the last session of their slot, a desktop's file is of version 3. It begins with
//! `hotsync-desktop 3`, and behind the line of a slot has a line for each of its databases that took no part, in byte order of
//! their stems: `apart STEM` for one that the session left apart, `unmet STEM` for one that it met on one side only.
//!
//! ```text
//! hotsync-desktop 3
//! pc 00000001
//! slots 2
//! slot 0 user 0000002a last 07d10909012e2800 name 4a616e65
//! apart DatebookDB
//! unmet Memo%20DB
//! slot 1 user 0000002b last 0000000000000000 name -
//! ```
//!
//! A desktop's file of version 1 is read as one slot: behind `hotsync-desktop 1` it has the lines `pc`, `user`, `last` and
//! `name`.
#![tactic(auto)]

mod bad_line;
mod database;
mod desktop;
mod desktop_text;
mod device;
mod fault;
mod folder;
mod line;
mod parted;
mod parted_list;
mod slot_info;
mod stem;
mod unread;
mod value;
mod word;

pub use bad_line::BadLine;
pub use database::{archive_file, base_file, database_file, rows_file, slot_prefix};
pub use desktop::read_desktop_info;
pub use desktop_text::write_desktop_info;
pub use device::{read_device_info, write_device_info};
pub use fault::InfoFault;
pub use folder::{DESKTOP_INFO, DEVICE_INFO, JOURNAL, is_handheld_file, is_kept_file};
pub use parted::{Parted, Parting};
pub use parted_list::{parting_of, put_parted, same_parted};
pub use slot_info::SlotInfo;
