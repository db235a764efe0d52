// One task.
ghost use Rattle.std.specs.Prelude.{◌≡◌, ◌≤◌, ◌++◌, ◌∷◌, [], OnOk, true};
ghost use Rattle.palm_records.specs.Tasks.{task_value};
ghost use Rattle.content_lines.specs.Properties.{is_plain};
ghost use Rattle.calendar_export.specs.Components.{origin_value, source_value};
ghost use Rattle.calendar_export.specs.TaskProperties.{due_properties, priority_property, status_value, task_properties, todo_properties};

use crate::component::{Origin, Source, push_head};
use crate::moment::push_day;
use content_lines::{Properties, Text};
use palm_records::{Day, Task};
use std::alloc::{AllocError, Global};

// Appends the day on which a task is due.
fn push_due(alloc: Global, calendar: &mut Properties, due: Option<Day>) -> Result<(), AllocError>
    ensures { OnOk result (calendar.new ≡ calendar.old ++ due_properties due) }
{
    let Some(day) = due else {
        return Ok(());
    };
    let mut value = Text::new(alloc, "")?;
    push_day(&mut value, day)?;
    calendar.push(alloc, "DUE;VALUE=DATE", value)?;
    Ok(())
}

// Appends the priority of a task, 1 to 5.
fn push_priority(alloc: Global, calendar: &mut Properties, priority: u8) -> Result<(), AllocError>
    requires low { 1 ≤ priority }
    requires high { priority ≤ 5 }
    ensures { OnOk result (calendar.new ≡ calendar.old ++ priority_property priority ∷ []) }
{
    let mut value = Text::new(alloc, "")?;
    value.push_digit(u16::from(2 * priority - 1))?;
    calendar.push(alloc, "PRIORITY", value)?;
    Ok(())
}

// The status of a task.
fn status(done: bool) -> &'static str
    ensures status { result.now ≡ status_value done }
    ensures plain { is_plain result.now ≡ true }
{
    if done { "COMPLETED" } else { "NEEDS-ACTION" }
}

// Appends what a task says.
#[tactic(auto, using(std::proofs::Common::append_assoc))]
fn push_task(alloc: Global, calendar: &mut Properties, task: Task<'_>) -> Result<(), AllocError>
    requires low { 1 ≤ task.priority }
    requires high { task.priority ≤ 5 }
    ensures { OnOk result (calendar.new ≡ calendar.old ++ task_properties (task_value task.entry)) }
{
    calendar.push_text(alloc, "SUMMARY", task.description)?;
    calendar.push_given(alloc, "DESCRIPTION", task.note)?;
    push_due(alloc, calendar, task.due)?;
    push_priority(alloc, calendar, task.priority)?;
    calendar.push_plain(alloc, "STATUS", status(task.done))?;
    Ok(())
}

/// Appends a task as a component.
pub fn push_todo(
    alloc: Global,
    calendar: &mut Properties,
    source: &Source<'_>,
    origin: &Origin<'_>,
    task: Task<'_>,
) -> Result<(), AllocError>
    requires stem { is_plain source.now.stem.now ≡ true }
    requires low { 1 ≤ task.priority }
    requires high { task.priority ≤ 5 }
    ensures { OnOk result (calendar.new ≡ calendar.old
        ++ todo_properties (source_value source.now) (origin_value origin.now) (task_value task.entry)) }
{
    calendar.push_plain(alloc, "BEGIN", "VTODO")?;
    push_head(alloc, calendar, source, origin.id)?;
    push_task(alloc, calendar, task)?;
    calendar.push_marks(alloc, origin.label, origin.secret)?;
    calendar.push_plain(alloc, "END", "VTODO")?;
    Ok(())
}
