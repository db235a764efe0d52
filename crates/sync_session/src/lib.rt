//! A session between a handheld and a desktop over a link: what it says, in order, and what both sides hold afterwards, as lists and
//! functions of what they held before.
#![tactic(auto)]

mod blocks;
mod ending;
mod giving;
mod laws;
mod marking;
mod preparing;
mod purging;
mod reading;
mod running;

pub use ending::end_all;
pub use giving::{give_all, give_one, make_one, send_all};
pub use laws::{
    nothing_is_written_before_the_mark, planned_rows_are_merged, readings_leave_the_handheld,
    requests_bear_no_given_id, the_first_loss_is_the_meetings, the_first_over_is_the_meetings,
    what_is_told_is_the_meetings,
};
pub use marking::{begin, finish};
pub use purging::{purge_all, purge_one};
pub use reading::{read_all, read_changed, read_one};
pub use running::run_session;
