// Tasks.
ghost use Rattle.std.specs.Prelude.{◌≡◌, ◌≤◌, IfOk};
ghost use Rattle.std.specs.Result.{result_err};
ghost use Rattle.palm_records.specs.Tasks.{place_of, strings_fault, ReadsTask, task_in};
ghost use Rattle.palm_records.specs.Strings.{behind_string, until_zero};

use crate::bad_record::BadRecord;
use crate::day::{Day, day_in};
use crate::text::split_string;
use byteorder::{BigEndian, ByteOrder};

/// The word that says that no day is set.
const NO_DAY: u16 = 0xFFFF;

/// The length of what stands before the strings.
const HEAD: usize = 3;

/// A task, whose texts lie in its record.
#[derive(Clone, Copy)]
pub struct Task<'a> {
    /// The day on which it is due, if any is set.
    pub due: Option<Day>,
    pub done: bool,
    /// 1 to 5; 1 is the most urgent.
    pub priority: u8,
    pub description: &'a [u8],
    pub note: &'a [u8],
}

// Two strings in a record, the first of which begins at this place.
fn read_strings(bytes: &[u8], place: usize) -> Result<(&[u8], &[u8]), BadRecord>
    requires { place ≤ 3 }
    ensures first { IfOk result (λ both. both.0.now ≡ until_zero bytes.now) }
    ensures second { IfOk result (λ both. both.1.now ≡ until_zero (behind_string bytes.now)) }
    ensures fault { place_of (result_err result) ≡ strings_fault place bytes.now }
{
    let Some((first, rest)) = split_string(bytes) else {
        return Err(BadRecord { place });
    };
    let Some((second, _)) = split_string(rest) else {
        return Err(BadRecord {
            place: place + first.len() + 1,
        });
    };
    Ok((first, second))
}

/// The task of a record's bytes, or the place of the first rule that they break: 0 where the day is none of the calendar,
/// 2 where the priority is none of the five, where a string begins that no zero byte ends, and their length where they
/// are too few.
pub fn read_task(bytes: &[u8]) -> Result<Task<'_>, BadRecord>
    ensures { ReadsTask result (task_in bytes.now) }
{
    if bytes.len() < HEAD {
        return Err(BadRecord { place: bytes.len() });
    }
    let word = BigEndian::read_u16(bytes);
    let due = day_in(word);
    if word != NO_DAY && due.is_none() {
        return Err(BadRecord { place: 0 });
    }
    let priority = bytes[2] % 128;
    if priority < 1 || priority > 5 {
        return Err(BadRecord { place: 2 });
    }
    let (description, note) = read_strings(&bytes[HEAD..], HEAD)?;
    Ok(Task {
        due: if word == NO_DAY { None } else { due },
        done: bytes[2] >= 128,
        priority,
        description,
        note,
    })
}
