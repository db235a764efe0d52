// Strings that stand in a record only where its head says so.
ghost use Rattle.std.specs.Prelude.{◌≡◌, ◌≤◌, IfOk, length};
ghost use Rattle.palm_events.specs.Steps.{Reads};
ghost use Rattle.palm_events.specs.Strings.{behind_text, text_in};

use palm_records::{BadRecord, split_string};

// The string at a place, or nothing.
pub fn read_text(is_there: bool, place: usize, bytes: &[u8]) -> Result<&[u8], BadRecord>
    requires { place ≤ length bytes.now }
    ensures text { Reads (λ text. text.now) result (text_in is_there place bytes.now) }
    ensures room { IfOk result (λ text. behind_text is_there place text.now ≤ length bytes.now) }
{
    if !is_there {
        return Ok(&[]);
    }
    match split_string(&bytes[place..]) {
        Some((text, _)) => Ok(text),
        None => Err(BadRecord { place }),
    }
}

// The place behind a string.
pub fn behind_text(is_there: bool, place: usize, text: &[u8]) -> usize
    requires { behind_text is_there place text.now ≤ usize.MAX }
    ensures { result ≡ behind_text is_there place text.now }
{
    if is_there {
        place + text.len() + 1
    } else {
        place
    }
}
