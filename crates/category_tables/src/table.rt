// The categories of a database.
ghost use Rattle.std.specs.Prelude.{◌≡◌, ◌<◌, not, bit_and, map};
ghost use Rattle.category_tables.specs.Tables.{entry_value, has_label, is_renamed, is_used, table_value};

/// A category: its label, which ends at its first zero byte, and its id.
#[derive(Clone, Copy)]
pub struct Entry {
    pub label: [u8; 16],
    pub id: u8,
}

/// The 16 categories of a database by their numbers, which of them were renamed, and the last id that was given.
#[derive(Clone, Copy)]
pub struct Table {
    /// The flag of a category is 2 to the power of its number.
    pub flags: u16,
    pub entries: [Entry; 16],
    pub last: u8,
}

// An entry that is not used.
pub(crate) const NO_ENTRY: Entry = Entry {
    label: [0; 16],
    id: 0,
};

impl Entry {
    // Whether it has a label.
    pub(crate) fn has_label(&self) -> bool
        ensures { result ≡ has_label (entry_value self.now) }
    {
        self.label[0] != 0
    }
}

impl Table {
    // Whether a category is used: number 0 always is, another one where it has a label.
    pub(crate) fn is_used(&self, number: usize) -> bool
        requires { number < 16 }
        ensures { result ≡ is_used (table_value self.now).entries number }
    {
        number == 0 || self.entries[number].has_label()
    }

    // Whether a category was renamed.
    pub(crate) fn is_renamed(&self, number: usize) -> bool
        requires { number < 16 }
        ensures { result ≡ is_renamed (table_value self.now) number }
    {
        self.flags & (1 << number) != 0
    }
}
