//! The room that a caller brings for a result.

ghost use Rattle.hotsync_c.specs.Rooms.{PutsIn};

/// Puts a text into the room as far as it fits, and says how long it is.
pub fn put(text: &[u8], room: &mut [u8]) -> i64
    ensures { PutsIn text.now room.old room.new result }
{
    let count = text.len().min(room.len());
    room[..count].copy_from_slice(&text[..count]);
    text.len() as i64
}
