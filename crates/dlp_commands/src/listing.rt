// Databases by name and by index, as requests ask for them.
ghost use Rattle.std.specs.Prelude.{◌≡◌, ◌&&◌, IfOk, not};
ghost use Rattle.palm_device.specs.Heads.{has_bit as has_this_bit, is_read_only};
ghost use Rattle.dlp_commands.specs.Answers.{Finds};
ghost use Rattle.dlp_commands.specs.DatabaseFunctions as table;

use crate::refusal::Refusal;
use palm_device::has_bit;
use pdb_values::{DbHead, DbName};

/// The name, where the card is 0 and it is one of a database.
pub fn named(card: u8, name: &[u8]) -> Result<DbName, Refusal>
    ensures named { Finds (λ _. tt) result (table.named card name.now) }
    ensures name { IfOk result (λ kept. kept ≡ name.now) }
{
    if card != 0 {
        return Err(Refusal::Parameter);
    }
    match DbName::new(name) {
        Ok(name) => Ok(name),
        Err(_) => Err(Refusal::Parameter),
    }
}

/// The flag 0x80 where a further database follows the one of an index.
pub fn more_flag(index: u16, count: usize) -> u8
    ensures { result ≡ table.more_flag index count }
{
    if (index as usize) + 1 < count {
        0x80
    } else {
        0
    }
}

/// A head as it is listed, without its seed.
pub fn listed(head: &DbHead) -> DbHead
    ensures { result ≡ table.listed head.now }
{
    let mut head = head.copy();
    head.seed = 0;
    head
}

/// Whether a database of this head may be written where it is open in this mode.
pub fn is_writable(mode: u8, head: &DbHead) -> bool
    ensures { result ≡ (has_this_bit 0x40 mode && not (is_read_only head.now.attributes)) }
{
    has_bit(0x40, mode as u16) && !has_bit(DbHead::READ_ONLY, head.attributes)
}
