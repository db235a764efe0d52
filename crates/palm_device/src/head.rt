// Heads of new databases, and the attributes that a handheld looks at.
ghost use Rattle.std.specs.Prelude.{◌≡◌};
ghost use Rattle.palm_device.specs.Heads as heads;

use pdb_values::{DbHead, DbName, FourCc, PalmDate};

/// Whether a number has one of these bits.
pub fn has_bit(bit: u16, number: u16) -> bool
    ensures { result ≡ heads.has_bit bit number }
{
    number & bit != 0
}

/// The head of a database that is made now: without dates, with modification number and seed 0, and not marked as open.
pub fn new_head(
    name: DbName,
    kind: FourCc,
    creator: FourCc,
    attributes: u16,
    version: u16,
) -> DbHead
    ensures { result ≡ heads.new_head name kind.0 creator.0 attributes version }
{
    DbHead {
        name,
        attributes: attributes & 0x7fff,
        version,
        created: PalmDate::of_seconds(0),
        modified: PalmDate::of_seconds(0),
        backup: PalmDate::of_seconds(0),
        modnum: 0,
        seed: 0,
        kind,
        creator,
    }
}
