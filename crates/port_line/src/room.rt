//! Bytes that are put into the front of a room.
ghost use Rattle.std.specs.Prelude.{◌≡◌, min, take, drop, length};

/// The bytes behind the first so many, none where there are no more.
pub(crate) fn behind(bytes: &[u8], from: usize) -> &[u8]
    ensures { result.now ≡ drop from bytes.now }
{
    bytes.get(from..).unwrap_or(&[])
}

/// Copies as many bytes as there are and as there is room for.
pub(crate) fn copy_front(room: &mut [u8], left: &[u8]) -> usize
    ensures count { result ≡ min (length room.old) (length left.now) }
    ensures room { length room.new ≡ length room.old }
    ensures bytes { take result room.new ≡ take (length room.old) left.now }
{
    let count = room.len().min(left.len());
    room[..count].copy_from_slice(&left[..count]);
    count
}
