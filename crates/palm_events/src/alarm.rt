// Alarms.
ghost use Rattle.std.specs.Prelude.{◌≡◌, ◌<◌, ◌≤◌, IfOk, IfSome, length};
ghost use Rattle.palm_events.specs.Steps.{Reads};
ghost use Rattle.palm_events.specs.Alarms.{alarm_in, behind_alarm, unit_of};

use crate::flags::Flags;
use palm_records::BadRecord;

/// The place of an alarm.
const PLACE: usize = 8;

/// In what an alarm counts.
#[derive(Clone, Copy, Debug, PartialEq, Eq)]
pub enum AlarmUnit {
    Minutes,
    Hours,
    Days,
}

/// An alarm, so many units before the start.
#[derive(Clone, Copy, Debug, PartialEq, Eq)]
pub struct Alarm {
    /// 0 to 127.
    pub advance: u8,
    pub unit: AlarmUnit,
}

// The unit that a byte says.
fn unit_of(byte: u8) -> Option<AlarmUnit>
    ensures { result ≡ unit_of byte }
{
    match byte {
        0 => Some(AlarmUnit::Minutes),
        1 => Some(AlarmUnit::Hours),
        2 => Some(AlarmUnit::Days),
        _ => None,
    }
}

// The alarm of a record, if it has one.
pub fn read_alarm(flags: Flags, bytes: &[u8]) -> Result<Option<Alarm>, BadRecord>
    requires { PLACE ≤ length bytes.now }
    ensures alarm { Reads (λ alarm. alarm) result (alarm_in flags bytes.now) }
    ensures form { IfOk result (λ alarm. IfSome alarm (λ alarm. alarm.advance < 128)) }
    ensures room { IfOk result (λ alarm. behind_alarm flags ≤ length bytes.now) }
{
    if !flags.alarm {
        return Ok(None);
    }
    if bytes.len() < PLACE + 2 {
        return Err(BadRecord { place: bytes.len() });
    }
    let Some(unit) = unit_of(bytes[PLACE + 1]) else {
        return Err(BadRecord { place: PLACE + 1 });
    };
    let advance = bytes[PLACE];
    if advance >= 128 {
        return Ok(None);
    }
    Ok(Some(Alarm { advance, unit }))
}

// The place behind the alarm.
pub fn behind_alarm(flags: Flags) -> usize
    ensures { result ≡ behind_alarm flags }
{
    if flags.alarm { PLACE + 2 } else { PLACE }
}
