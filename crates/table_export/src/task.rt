// The columns of a task.
ghost use Rattle.std.specs.Prelude.{◌≡◌, ◌++◌, ◌∷◌, [], OnOk, string_bytes};
ghost use Rattle.palm_records.specs.Tasks.{task_value};
ghost use Rattle.csv.specs.Records.{fields_of};
ghost use Rattle.table_export.specs.Tasks.{day_text, digit, done_text, due_text, four_digits, task_columns, two_digits};

use crate::field::push_palm;
use csv::StringRecord;
use palm_records::{Day, Task};
use std::alloc::{AllocError, Global};

/// Appends the columns of a task.
pub fn push_task(alloc: Global, row: &mut StringRecord, task: Task<'_>) -> Result<(), AllocError>
    ensures { OnOk result (fields_of row.new
        ≡ fields_of row.old ++ task_columns (task_value task.entry)) }
{
    push_due(alloc, row, task.due)?;
    row.push_field(done_text(task.done))?;
    push_priority(alloc, row, task.priority)?;
    push_palm(alloc, row, task.description)?;
    push_palm(alloc, row, task.note)?;
    Ok(())
}

// Appends the day on which a task is due, if any is set.
fn push_due(alloc: Global, row: &mut StringRecord, due: Option<Day>) -> Result<(), AllocError>
    ensures { OnOk result (fields_of row.new ≡ fields_of row.old ++ due_text due ∷ []) }
{
    let mut text = String::new(alloc);
    if let Some(day) = due {
        push_day(&mut text, day)?;
    }
    row.push_field(text.as_str())?;
    Ok(())
}

// The mark of a task that is done.
fn done_text(done: bool) -> &'static str
    ensures { result.now ≡ done_text done }
{
    if done { "done" } else { "" }
}

// Appends the priority of a task.
fn push_priority(alloc: Global, row: &mut StringRecord, priority: u8) -> Result<(), AllocError>
    ensures { OnOk result (fields_of row.new
        ≡ fields_of row.old ++ (digit priority ∷ []) ∷ []) }
{
    let mut text = String::new(alloc);
    push_digit(&mut text, u16::from(priority))?;
    row.push_field(text.as_str())?;
    Ok(())
}

// Appends year, month and day.
fn push_day(text: &mut String, day: Day) -> Result<(), AllocError>
    ensures { OnOk result (string_bytes text.new ≡ string_bytes text.old ++ day_text day) }
{
    push_four(text, day.year)?;
    text.push_str("-")?;
    push_two(text, u16::from(day.month))?;
    text.push_str("-")?;
    push_two(text, u16::from(day.day))?;
    Ok(())
}

// Appends the last four digits of a number.
fn push_four(text: &mut String, number: u16) -> Result<(), AllocError>
    ensures { OnOk result (string_bytes text.new ≡ string_bytes text.old ++ four_digits number) }
{
    push_two(text, number / 100)?;
    push_two(text, number)?;
    Ok(())
}

// Appends the last two digits of a number.
fn push_two(text: &mut String, number: u16) -> Result<(), AllocError>
    ensures { OnOk result (string_bytes text.new ≡ string_bytes text.old ++ two_digits number) }
{
    push_digit(text, number / 10)?;
    push_digit(text, number)?;
    Ok(())
}

// Appends the last digit of a number.
fn push_digit(text: &mut String, number: u16) -> Result<(), AllocError>
    ensures { OnOk result (string_bytes text.new ≡ string_bytes text.old ++ digit number ∷ []) }
{
    text.push(char::from(b'0' + (number % 10) as u8))?;
    Ok(())
}
