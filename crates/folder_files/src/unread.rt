// The bytes that a reading leaves.
ghost use Rattle.std.specs.Prelude.{◌≡◌, ◌-◌, length};

use crate::bad_line::BadLine;

// How many bytes are left unread, from the first byte of a bad line on.
#[derive(Clone, Copy)]
pub(crate) struct Unread(pub(crate) usize);

impl Unread {
    // Where the bad line begins in all of the bytes.
    pub(crate) fn place_in(self, bytes: &[u8]) -> BadLine
        ensures { result.place ≡ length bytes.now - self.0 }
    {
        BadLine {
            place: bytes.len().saturating_sub(self.0) as u64,
        }
    }
}
