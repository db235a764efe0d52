// What bears an id.
ghost use Rattle.std.specs.Prelude.{◌≡◌, ℕ};

use crate::view::Seen;
use pdb_values::{Record, RecordId};

/// What stands in lists in rising ids.
pub trait HasId {
    ghost id_of: { Self → ℕ };

    /// Its id.
    fn id(&self) -> RecordId
        ensures { result ≡ id_of self.now };
}

impl HasId for Record {
    ghost id_of = { λ item. item.id };

    fn id(&self) -> RecordId {
        self.id
    }
}

impl HasId for Seen {
    ghost id_of = { λ seen. seen.id };

    fn id(&self) -> RecordId {
        self.id
    }
}
