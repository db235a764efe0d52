//! What every session over a link shares: how both sides meet, the stretches of requests under an open database, why a session
//! stops, and what it leaves and tells.
#![tactic(auto)]

mod meeting;
mod outcome;
mod report;
mod skip;
mod stop;

pub use meeting::{Met, meet, meet_over};
pub use outcome::Outcome;
pub use report::{Counts, DbReport, Did, FiledCounts};
pub use skip::Skip;
pub use stop::Stop;
