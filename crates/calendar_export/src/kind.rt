// Which databases are exported as iCalendar objects.

/// What the records of a database are.
#[derive(Clone, Copy)]
pub enum Kind {
    /// Tasks of a To Do list.
    Tasks,
    /// Dates of the Date Book.
    Dates,
}
