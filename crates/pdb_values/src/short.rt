// Short bytes, which lie in the value itself.
ghost use Rattle.std.specs.Prelude.{◌≡◌, ◌≤◌, length};

use arrayvec::ArrayVec;

// These bytes, in a place of their own.
pub fn short_bytes<const N: usize>(bytes: &[u8]) -> ArrayVec<u8, N>
    requires { length bytes.now ≤ N }
    ensures { result.items ≡ bytes.now }
{
    let mut held = ArrayVec::new();
    held.try_extend_from_slice(bytes).unwrap();
    held
}
