//! What a synchronisation of one database decides: for each record, from what the handheld, the desktop and
//! the state after the last synchronisation say, what both sides keep, what is archived, and what is new for
//! the handheld.
//!
//! The states of a record follow the record attributes of the Palm File Format Specification (delete bit with
//! or without bytes) and the mirror conduits of pilot-link. The table of what becomes of a record that both
//! sides know is this project's own: no change of either side is lost.
#![tactic(auto)]

mod action;
mod basis;
mod buckets;
mod draft;
mod front;
mod has_id;
mod holding;
pub mod laws;
mod loose;
mod news;
mod planned;
mod planner;
mod rows;
mod run;
mod steps;
mod table;
mod verdict;
mod view;

pub use action::Action;
pub use has_id::HasId;
pub use planned::Plan;
pub use planner::{plan, plan_counted};
pub use run::Run;
pub use steps::Steps;
pub use table::{Archive, Keep, Outcome, Side, decide};
pub use view::{Seen, SeenState, View};
