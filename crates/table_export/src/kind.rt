// Which databases are exported as tables, and how their fields are shown.

/// What the records of a database are.
#[derive(Clone, Copy)]
pub enum Kind {
    /// Addresses of an address book.
    Addresses,
    /// Tasks of a To Do list.
    Tasks,
}

/// How fields are shown that a spreadsheet takes for formulas.
#[derive(Clone, Copy)]
pub enum Marks {
    /// As they are.
    Absent,
    /// Each with an apostrophe in front, which a spreadsheet takes for the beginning of a text.
    Formulas,
}
