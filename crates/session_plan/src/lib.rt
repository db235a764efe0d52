//! What a session of a handheld and a desktop plans: its databases, its skips and limits, what it would cost the desktop, what both sides
//! hold afterwards, as functions of what they held before; and the marks, heads, names and archives that it makes. It knows no link.
#![tactic(auto)]

mod archive;
mod building;
mod committing;
mod counts;
mod heads;
mod job;
mod jobs;
mod judge;
mod limits;
mod losses;
mod names;
mod numbers;
mod partings;
mod planned;
mod planning;
mod reporting;
mod rows;
mod sizes;
mod strangers;
mod taking;
mod users;
mod wishes;

pub use archive::{merged_archive, settled};
pub use building::{beside, refilled};
pub use committing::commit_all;
pub use counts::read_count;
pub use heads::{made_head, rows_head};
pub use job::Job;
pub use jobs::jobs_of;
pub use judge::{action_of, skip_of};
pub use limits::{first_limit, first_over, is_over};
pub use losses::first_loss;
pub use names::put_name;
pub use numbers::new_number;
pub use planned::Planned;
pub use planning::plan_all;
pub use reporting::reports_of;
pub use rows::{planned_base, planned_rows};
pub use sizes::Sizes;
pub use strangers::{has_lost_all, is_stranger_to};
pub use users::{begun_user, done_marks, done_user};
pub use wishes::Wishes;
