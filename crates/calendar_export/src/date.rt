// One date.
ghost use Rattle.std.specs.Prelude.{◌≡◌, ◌<◌, ◌++◌, IfOk, IsTrue, OnOk, codes, map, true};
ghost use Rattle.palm_events.specs.Calendar.{is_date};
ghost use Rattle.palm_events.specs.Events.{event_value};
ghost use Rattle.palm_events.specs.Exceptions.{days_in};
ghost use Rattle.palm_events.specs.Forms.{IsEvent};
ghost use Rattle.content_lines.specs.Properties.{IsBytes, is_name, is_plain};
ghost use Rattle.calendar_export.specs.Components.{origin_value, source_value};
ghost use Rattle.calendar_export.specs.Dates.{IsDate, date_of, exceptions_of, own_of, start_of};
ghost use Rattle.calendar_export.specs.DateProperties as spec;
ghost use Rattle.calendar_export.specs.DateProperties.{alarm_properties, day_mark, day_property, day_value, end_day, end_properties, event_properties, exception_properties, own_properties, time_chars, trigger_value, unit_letter, unit_mark, what_properties, when_properties};

use crate::component::{Origin, Source, push_head};
use crate::moment::{push_clock, push_day};
use crate::rule::{push_number, push_rule};
use content_lines::{Properties, Text};
use palm_events::{
    Alarm, AlarmUnit, Event, Exceptions, Rule, Time, Times, first_day, next_day, rule_of,
};
use palm_records::Day;
use std::alloc::{AllocError, Global};

// Appends a day and a time of it.
fn push_time(value: &mut Text, day: Day, time: Time) -> Result<(), AllocError>
    ensures { OnOk result (value.new ≡ value.old ++ time_chars day time) }
{
    push_day(value, day)?;
    value.push_plain("T")?;
    push_clock(value, time.hour, time.minute, 0)?;
    Ok(())
}

// A day, with the time at which the date begins, if it has one.
fn day_text(alloc: Global, time: Option<Times>, day: Day) -> Result<Text, AllocError>
    ensures { IfOk result (λ value. value ≡ day_value time day) }
{
    let mut value = Text::new(alloc, "")?;
    match time {
        Some(times) => push_time(&mut value, day, times.start)?,
        None => push_day(&mut value, day)?,
    }
    Ok(value)
}

// The name of the start. A day alone is marked.
fn start_name(time: Option<Times>) -> &'static str
    ensures name { result.now ≡ codes "DTSTART" ++ day_mark time }
    ensures proper { is_name result.now ≡ true }
{
    match time {
        Some(_) => "DTSTART",
        None => "DTSTART;VALUE=DATE",
    }
}

// That of a day on which a rule does not hold.
fn exception_name(time: Option<Times>) -> &'static str
    ensures name { result.now ≡ codes "EXDATE" ++ day_mark time }
    ensures proper { is_name result.now ≡ true }
{
    match time {
        Some(_) => "EXDATE",
        None => "EXDATE;VALUE=DATE",
    }
}

// Whether a time is before another one of its day.
fn is_before(one: Time, other: Time) -> bool
    ensures { result ≡ spec.is_before one other }
{
    60 * u16::from(one.hour) + u16::from(one.minute)
        < 60 * u16::from(other.hour) + u16::from(other.minute)
}

// The day on which a date ends.
fn end_day(start: Day, times: Times) -> Day
    requires date { IsTrue (is_date start) }
    requires year { start.year < 10000 }
    ensures { result ≡ end_day start times }
{
    if is_before(times.end, times.start) {
        next_day(start)
    } else {
        start
    }
}

// Whether the end is the start.
fn is_same_time(times: Times) -> bool
    ensures { result ≡ spec.is_same_time times }
{
    times.start.hour == times.end.hour && times.start.minute == times.end.minute
}

// Appends the end, where it isn't the start.
fn push_end(
    alloc: Global,
    calendar: &mut Properties,
    start: Day,
    time: Option<Times>,
) -> Result<(), AllocError>
    requires date { IsTrue (is_date start) }
    requires year { start.year < 10000 }
    ensures { OnOk result (calendar.new ≡ calendar.old ++ end_properties start time) }
{
    let Some(times) = time else {
        return Ok(());
    };
    if is_same_time(times) {
        return Ok(());
    }
    let mut value = Text::new(alloc, "")?;
    push_time(&mut value, end_day(start, times), times.end)?;
    calendar.push(alloc, "DTEND", value)?;
    Ok(())
}

// Appends the days on which a rule does not hold.
fn push_exceptions(
    alloc: Global,
    calendar: &mut Properties,
    time: Option<Times>,
    exceptions: Exceptions<'_>,
) -> Result<(), AllocError>
    ensures { OnOk result (calendar.new ≡ calendar.old
        ++ map (day_property (codes "EXDATE") time) (days_in exceptions.entry.bytes.now)) }
{
    for index in 0..exceptions.len() {
        push_exception(alloc, calendar, time, exceptions.get(index))?;
    }
    Ok(())
}

// Appends one of them, if there is one.
fn push_exception(
    alloc: Global,
    calendar: &mut Properties,
    time: Option<Times>,
    day: Option<Day>,
) -> Result<(), AllocError>
    ensures { OnOk result (calendar.new
        ≡ calendar.old ++ exception_properties (day_property (codes "EXDATE") time) day) }
{
    let Some(day) = day else {
        return Ok(());
    };
    let value = day_text(alloc, time, day)?;
    calendar.push(alloc, exception_name(time), value)?;
    Ok(())
}

// Appends them, where there is a rule.
fn push_ruled(
    alloc: Global,
    calendar: &mut Properties,
    time: Option<Times>,
    rule: Option<Rule>,
    exceptions: Exceptions<'_>,
) -> Result<(), AllocError>
    ensures { OnOk result (calendar.new ≡ calendar.old ++ map (day_property (codes "EXDATE") time)
        (exceptions_of rule (days_in exceptions.entry.bytes.now))) }
{
    match rule {
        Some(_) => push_exceptions(alloc, calendar, time, exceptions),
        None => Ok(()),
    }
}

// The day of a record, where the date begins on another one.
fn own_of(start: Day, own: Day) -> Option<Day>
    ensures { result ≡ own_of start own }
{
    if start.year == own.year && start.month == own.month && start.day == own.day {
        None
    } else {
        Some(own)
    }
}

// Appends that day.
fn push_own(alloc: Global, calendar: &mut Properties, own: Option<Day>) -> Result<(), AllocError>
    ensures { OnOk result (calendar.new ≡ calendar.old ++ own_properties own) }
{
    let Some(day) = own else {
        return Ok(());
    };
    let mut value = Text::new(alloc, "")?;
    push_day(&mut value, day)?;
    calendar.push(alloc, "X-PALM-DATE", value)?;
    Ok(())
}

// What stands before a number of minutes, hours or days.
fn unit_mark(unit: AlarmUnit) -> &'static str
    ensures mark { result.now ≡ unit_mark unit }
    ensures plain { is_plain result.now ≡ true }
{
    match unit {
        AlarmUnit::Minutes => "-PT",
        AlarmUnit::Hours => "-PT",
        AlarmUnit::Days => "-P",
    }
}

// And behind it.
fn unit_letter(unit: AlarmUnit) -> &'static str
    ensures letter { result.now ≡ unit_letter unit }
    ensures plain { is_plain result.now ≡ true }
{
    match unit {
        AlarmUnit::Minutes => "M",
        AlarmUnit::Hours => "H",
        AlarmUnit::Days => "D",
    }
}

// How long an alarm rings before the start.
fn trigger_text(alloc: Global, alarm: Alarm) -> Result<Text, AllocError>
    ensures { IfOk result (λ value. value ≡ trigger_value alarm) }
{
    let mut value = Text::new(alloc, unit_mark(alarm.unit))?;
    push_number(&mut value, alarm.advance)?;
    value.push_plain(unit_letter(alarm.unit))?;
    Ok(value)
}

// Appends the alarm of a date, if it has one.
#[tactic(auto, using(std::proofs::Common::append_assoc))]
fn push_alarm(
    alloc: Global,
    calendar: &mut Properties,
    description: &[u8],
    alarm: Option<Alarm>,
) -> Result<(), AllocError>
    ensures { OnOk result (calendar.new ≡ calendar.old ++ alarm_properties description.now alarm) }
{
    let Some(alarm) = alarm else {
        return Ok(());
    };
    calendar.push_plain(alloc, "BEGIN", "VALARM")?;
    calendar.push_plain(alloc, "ACTION", "DISPLAY")?;
    calendar.push_text(alloc, "DESCRIPTION", description)?;
    let trigger = trigger_text(alloc, alarm)?;
    calendar.push(alloc, "TRIGGER", trigger)?;
    calendar.push_plain(alloc, "END", "VALARM")?;
    Ok(())
}

// The day on which a date begins: the first one that its record shows, or its own where that shows none.
fn start_of(event: &Event<'_>) -> Day
    requires { IsEvent (event_value event.now) }
    ensures start { result ≡ start_of (event_value event.now) }
    ensures date { IsTrue (is_date result) }
    ensures year { result.year < 10000 }
{
    match first_day(event) {
        Some(day) => day,
        None => event.date,
    }
}

// Appends when a date is.
fn push_when(alloc: Global, calendar: &mut Properties, event: &Event<'_>) -> Result<(), AllocError>
    requires { IsEvent (event_value event.now) }
    ensures { OnOk result (calendar.new
        ≡ calendar.old ++ when_properties (date_of (event_value event.now))) }
{
    let start = start_of(event);
    let rule = rule_of(event);
    let value = day_text(alloc, event.time, start)?;
    calendar.push(alloc, start_name(event.time), value)?;
    push_end(alloc, calendar, start, event.time)?;
    push_rule(alloc, calendar, event.time.is_some(), rule)?;
    push_ruled(alloc, calendar, event.time, rule, event.exceptions)?;
    push_own(alloc, calendar, own_of(start, event.date))?;
    Ok(())
}

// Appends what it is.
#[tactic(auto, using(std::proofs::Common::append_assoc))]
fn push_what(alloc: Global, calendar: &mut Properties, event: &Event<'_>) -> Result<(), AllocError>
    ensures text { OnOk result (calendar.new
        ≡ calendar.old ++ what_properties (date_of (event_value event.now))) }
    ensures description { OnOk result (IsBytes event.now.description.now) }
    ensures note { OnOk result (IsBytes event.now.note.now) }
{
    calendar.push_text(alloc, "SUMMARY", event.description)?;
    calendar.push_given(alloc, "DESCRIPTION", event.note)?;
    Ok(())
}

/// Appends a date as a component.
pub fn push_event(
    alloc: Global,
    calendar: &mut Properties,
    source: &Source<'_>,
    origin: &Origin<'_>,
    event: &Event<'_>,
) -> Result<(), AllocError>
    requires stem { is_plain source.now.stem.now ≡ true }
    requires form { IsEvent (event_value event.now) }
    ensures text { OnOk result (calendar.new ≡ calendar.old
        ++ event_properties (source_value source.now) (origin_value origin.now) (date_of (event_value event.now))) }
    ensures form { OnOk result (IsDate (date_of (event_value event.now))) }
{
    calendar.push_plain(alloc, "BEGIN", "VEVENT")?;
    push_head(alloc, calendar, source, origin.id)?;
    push_when(alloc, calendar, event)?;
    push_what(alloc, calendar, event)?;
    calendar.push_marks(alloc, origin.label, origin.secret)?;
    push_alarm(alloc, calendar, event.description, event.alarm)?;
    calendar.push_plain(alloc, "END", "VEVENT")?;
    Ok(())
}
