// Which records are kept.
ghost use Rattle.std.specs.Prelude.{◌≡◌};
ghost use Rattle.palm_device.specs.Kept.{is_kept};

use pdb_values::{Category, Record};

/// Which records are kept when others are taken out.
#[derive(Clone, Copy)]
pub enum Kept {
    /// Those that were not deleted.
    Live,
    /// Those that are in other categories.
    Outside(Category),
}

impl Kept {
    /// Whether the record is kept.
    pub fn keeps(&self, item: &Record) -> bool
        ensures { result ≡ is_kept self.now item.now }
    {
        match self {
            Kept::Live => !item.deleted,
            Kept::Outside(category) => item.content.category() != *category,
        }
    }
}
