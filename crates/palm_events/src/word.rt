// Numbers of two bytes.
ghost use Rattle.std.specs.Prelude.{◌≡◌, ◌+◌, ◌≤◌, length};
ghost use Rattle.palm_events.specs.Words.{word_at};

// The number of the two bytes at a place, the high one first.
pub fn word_at(bytes: &[u8], place: usize) -> u16
    requires { place + 2 ≤ length bytes.now }
    ensures { result ≡ word_at bytes.now place }
{
    u16::from(bytes[place]) * 256 + u16::from(bytes[place + 1])
}
