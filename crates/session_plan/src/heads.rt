// The heads of databases that a session makes.
ghost use Rattle.std.specs.Prelude.{◌≡◌};
ghost use Rattle.session_plan.specs.Heads as heads;

use pdb_values::{DbHead, PalmDate};

// The attributes of a database that is neither hidden nor marked as open.
fn plain_attributes(attributes: u16) -> u16
    ensures { result ≡ heads.plain_attributes attributes }
{
    attributes & 0x7FFB
}

/// The head by which a database is made that the handheld lacks.
pub fn made_head(rows: &DbHead) -> DbHead
    ensures { result ≡ heads.made_head rows.now }
{
    let mut head = rows.copy();
    head.attributes = plain_attributes(rows.attributes);
    head
}

/// The head of new rows on the desktop, for a database of the handheld.
pub fn rows_head(date: PalmDate, handheld: &DbHead) -> DbHead
    ensures { result ≡ heads.rows_head date handheld.now }
{
    let mut head = handheld.copy();
    head.attributes = plain_attributes(handheld.attributes);
    head.created = date;
    head.modified = date;
    head.backup = PalmDate::of_seconds(0);
    head.modnum = 0;
    head.seed = 0;
    head
}
