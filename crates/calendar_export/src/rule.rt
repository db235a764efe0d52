// Rules of recurrence.
ghost use Rattle.std.specs.Prelude.{◌≡◌, ◌<◌, ◌+◌, ◌++◌, IfOk, OnOk, suc, true, ℕ};
ghost use Rattle.content_lines.specs.Properties.{is_plain};
ghost use Rattle.calendar_export.specs.RuleValues.{comma, day_end, days_chars, frequency_chars, number_chars, rule_properties, rule_value, until_chars, week_chars, weekday_chars, weekdays_chars, weekdays_from};

use crate::moment::{push_day, push_two};
use content_lines::{Properties, Text};
use palm_events::{Frequency, Rule, Week, Weekdays};
use palm_records::Day;
use std::alloc::{AllocError, Global};

/// Appends a number without zeros in front.
pub fn push_number(value: &mut Text, number: u8) -> Result<(), AllocError>
    ensures { OnOk result (value.new ≡ value.old ++ number_chars number) }
{
    if number < 10 {
        value.push_digit(u16::from(number))?;
        return Ok(());
    }
    if number < 100 {
        push_two(value, number)?;
        return Ok(());
    }
    value.push_digit(u16::from(number / 100))?;
    push_two(value, number)?;
    Ok(())
}

// A weekday, from 0 Sunday to 6 Saturday.
fn weekday_name(weekday: u8) -> &'static str
    ensures name { result.now ≡ weekday_chars weekday }
    ensures plain { is_plain result.now ≡ true }
{
    match weekday {
        0 => "SU",
        1 => "MO",
        2 => "TU",
        3 => "WE",
        4 => "TH",
        5 => "FR",
        _ => "SA",
    }
}

// Which one of a month's.
fn week_name(week: Week) -> &'static str
    ensures name { result.now ≡ week_chars week }
    ensures plain { is_plain result.now ≡ true }
{
    match week {
        Week::First => "1",
        Week::Second => "2",
        Week::Third => "3",
        Week::Fourth => "4",
        Week::Last => "-1",
    }
}

// The unit in which a rule counts.
fn frequency_name(frequency: Frequency) -> &'static str
    ensures name { result.now ≡ frequency_chars frequency }
    ensures plain { is_plain result.now ≡ true }
{
    match frequency {
        Frequency::Daily => "DAILY",
        Frequency::Weekly { .. } => "WEEKLY",
        Frequency::Monthly | Frequency::MonthlyByDay { .. } => "MONTHLY",
        Frequency::Yearly => "YEARLY",
    }
}

// A comma behind others.
fn comma(some: bool) -> &'static str
    ensures comma { result.now ≡ comma some }
    ensures plain { is_plain result.now ≡ true }
{
    if some { "," } else { "" }
}

// Appends a weekday, where it is one of these days, and answers whether there are some by now.
fn push_weekday(
    value: &mut Text,
    days: Weekdays,
    weekday: u8,
    some: bool,
) -> Result<bool, AllocError>
    requires { weekday < 7 }
    ensures { IfOk result (λ now. (more : ℕ) → value.new ++ weekdays_from days more (weekday + 1) now
        ≡ value.old ++ weekdays_from days (suc more) weekday some) }
{
    if !days.has(weekday) {
        return Ok(some);
    }
    value.push_plain(comma(some))?;
    value.push_plain(weekday_name(weekday))?;
    Ok(true)
}

// Appends the days of a week.
fn push_weekdays(value: &mut Text, days: Weekdays) -> Result<(), AllocError>
    ensures { OnOk result (value.new ≡ value.old ++ weekdays_chars days) }
{
    let mut some = false;
    for weekday in 0..7 {
        some = push_weekday(value, days, weekday, some)?;
    }
    Ok(())
}

// Appends the days of a week, and its first one.
fn push_weekly(value: &mut Text, days: Weekdays, first: u8) -> Result<(), AllocError>
    ensures { OnOk result (value.new ≡ value.old ++ days_chars (Frequency.Weekly days first)) }
{
    value.push_plain(";BYDAY=")?;
    push_weekdays(value, days)?;
    value.push_plain(";WKST=")?;
    value.push_plain(weekday_name(first))?;
    Ok(())
}

// Appends a weekday and which one of a month's it is.
fn push_monthly(value: &mut Text, week: Week, weekday: u8) -> Result<(), AllocError>
    ensures { OnOk result (value.new
        ≡ value.old ++ days_chars (Frequency.MonthlyByDay week weekday)) }
{
    value.push_plain(";BYDAY=")?;
    value.push_plain(week_name(week))?;
    value.push_plain(weekday_name(weekday))?;
    Ok(())
}

// Appends the days in each unit of a rule.
fn push_days(value: &mut Text, frequency: Frequency) -> Result<(), AllocError>
    ensures { OnOk result (value.new ≡ value.old ++ days_chars frequency) }
{
    match frequency {
        Frequency::Weekly { days, first } => push_weekly(value, days, first),
        Frequency::MonthlyByDay { week, weekday } => push_monthly(value, week, weekday),
        Frequency::Daily | Frequency::Monthly | Frequency::Yearly => Ok(()),
    }
}

// The end of a day, where the date has a time.
fn day_end(timed: bool) -> &'static str
    ensures end { result.now ≡ day_end timed }
    ensures plain { is_plain result.now ≡ true }
{
    if timed { "T235959" } else { "" }
}

// Appends the last day of a rule.
fn push_until(value: &mut Text, timed: bool, until: Option<Day>) -> Result<(), AllocError>
    ensures { OnOk result (value.new ≡ value.old ++ until_chars timed until) }
{
    let Some(day) = until else {
        return Ok(());
    };
    value.push_plain(";UNTIL=")?;
    push_day(value, day)?;
    value.push_plain(day_end(timed))?;
    Ok(())
}

/// Appends the rule of a date that has a time or not, if it has one.
pub fn push_rule(
    alloc: Global,
    calendar: &mut Properties,
    timed: bool,
    rule: Option<Rule>,
) -> Result<(), AllocError>
    ensures { OnOk result (calendar.new ≡ calendar.old ++ rule_properties timed rule) }
{
    let Some(rule) = rule else {
        return Ok(());
    };
    let value = rule_text(alloc, timed, rule)?;
    calendar.push(alloc, "RRULE", value)?;
    Ok(())
}

// The value of a rule.
#[tactic(auto, using(std::proofs::Common::append_assoc))]
fn rule_text(alloc: Global, timed: bool, rule: Rule) -> Result<Text, AllocError>
    ensures { IfOk result (λ value. value ≡ rule_value timed rule) }
{
    let mut value = Text::new(alloc, "FREQ=")?;
    value.push_plain(frequency_name(rule.frequency))?;
    value.push_plain(";INTERVAL=")?;
    push_number(&mut value, rule.interval)?;
    push_days(&mut value, rule.frequency)?;
    push_until(&mut value, timed, rule.until)?;
    Ok(value)
}
