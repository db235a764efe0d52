// Rules of recurrence (RFC 5545, section 3.3.10).
ghost use Rattle.std.specs.Prelude.{◌≡◌};
ghost use Rattle.palm_events.specs.Events.{event_value};
ghost use Rattle.palm_events.specs.Forms.{IsEvent};
ghost use Rattle.palm_events.specs.RecordRules.{TheRuleOccursWhereTheRecordShows, frequency_of, rule_of};

use crate::event::Event;
use crate::repeat::{Pattern, Week, Weekdays};
use crate::shown_days::{first_day, first_weekday};
use palm_records::Day;

/// The unit in which a rule counts, and the days in each.
#[derive(Clone, Copy, Debug, PartialEq, Eq)]
pub enum Frequency {
    /// `FREQ=DAILY`.
    Daily,
    /// `FREQ=WEEKLY` with the days of `BYDAY` and the first weekday, 0 Sunday to 6 Saturday, of `WKST`.
    Weekly { days: Weekdays, first: u8 },
    /// `FREQ=MONTHLY`: the day of the month on which the rule begins.
    Monthly,
    /// `FREQ=MONTHLY` with one weekday, 0 Sunday to 6 Saturday, in `BYDAY`, with 1 to 4, or -1 for the last one.
    MonthlyByDay { week: Week, weekday: u8 },
    /// `FREQ=YEARLY`: the month and the day on which the rule begins.
    Yearly,
}

/// A rule of recurrence.
#[derive(Clone, Copy, Debug, PartialEq, Eq)]
pub struct Rule {
    pub frequency: Frequency,
    /// `INTERVAL`.
    pub interval: u8,
    /// `UNTIL`, the last day.
    pub until: Option<Day>,
}

// The frequency of a pattern.
fn frequency_of(pattern: Pattern) -> Frequency
    ensures { result ≡ frequency_of pattern }
{
    match pattern {
        Pattern::Daily => Frequency::Daily,
        Pattern::Weekly { days, from_monday } => Frequency::Weekly {
            days,
            first: first_weekday(from_monday),
        },
        Pattern::MonthlyByDay { week, weekday } => Frequency::MonthlyByDay { week, weekday },
        Pattern::MonthlyByDate => Frequency::Monthly,
        Pattern::Yearly => Frequency::Yearly,
    }
}

/// The rule, begun on the first day that a record shows, of the days that it shows: none where it does not repeat, or
/// shows no day.
pub fn rule_of(event: &Event<'_>) -> Option<Rule>
    requires { IsEvent (event_value event.now) }
    ensures { result ≡ rule_of (event_value event.now) }
{
    let repeat = event.repeat?;
    first_day(event)?;
    Some(Rule {
        frequency: frequency_of(repeat.pattern),
        interval: repeat.every,
        until: repeat.until,
    })
}

/// Begun on the first day that a record shows, its rule occurs on exactly the days that the record shows.
pub fn the_rule_occurs_where_the_record_shows()
    ensures { TheRuleOccursWhereTheRecordShows }
{}
