//! The merge of one database: the writes by which a plan reaches the handheld, in their order, what they
//! make of its records, and what the desktop keeps. There is no code: the crates that carry a plan out,
//! and those that speak of whole sessions, stand on its definitions and its laws.
//!
//! The plan whose writes these are is made by `conduit_rules`, of a view of the handheld's records, the
//! desktop's rows and its base rows (`session_plan` has this call):
//!
//! ```text
//! plan(alloc, view, records_in(rows), base, !agree, action_of(job.action))
//! ```
#![tactic(auto)]

pub mod laws;
