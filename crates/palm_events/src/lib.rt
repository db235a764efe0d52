//! What the Date Book's records say: dates with their times, alarms and repeats.
//!
//! `read_event` gives what a record says, lent from its bytes, or the place where it breaks its form. `first_day` is the
//! first day that a record shows, and `rule_of` its rule of recurrence: begun on that day, the rule occurs on exactly the
//! days that the record shows, which `the_rule_occurs_where_the_record_shows` has as a law. `day_number`, `weekday` and
//! `next_day` reckon with days. The public sources are the Palm File Format Specification, pilot-link's `datebook.h` and
//! `datebook.c`, and RFC 5545.
#![tactic(auto)]

mod alarm;
mod calendar;
mod days;
mod event;
mod exceptions;
mod flags;
mod numbered_day;
mod repeat;
mod rule;
mod shown_days;
mod strings;
mod times;
mod word;

pub use alarm::{Alarm, AlarmUnit};
pub use calendar::{day_number, next_day, weekday};
pub use event::{Event, read_event};
pub use exceptions::Exceptions;
pub use repeat::{Pattern, Repeat, Week, Weekdays};
pub use rule::{Frequency, Rule, rule_of, the_rule_occurs_where_the_record_shows};
pub use shown_days::first_day;
pub use times::{Time, Times};
