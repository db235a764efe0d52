//! What is open under a handle, as bytes.
ghost use Rattle.std.specs.Prelude.{◌≡◌, IfOk, IsErr, Option};
ghost use Rattle.std.specs.Option.{option_map};
ghost use Rattle.palm_device.specs.declared.opened.Opened.{Opened};
ghost use Rattle.device_state.specs.Opened.{IsNamed, opened_text};

use crate::numbers::number_of;
use arrayvec::ArrayVec;
use device_stream::PartsFault;
use palm_device::Opened;
use pdb_values::DbName;

/// How many bytes something open has at most.
const MOST: usize = 34;

/// The bytes of what is open.
pub(crate) fn opened_bytes(slot: Option<&Opened>) -> ArrayVec<u8, MOST>
    ensures bytes { result.items ≡ opened_text (option_map (λ opened. opened.now) slot.entry) }
    ensures named { IsNamed (option_map (λ opened. opened.now) slot.entry) }
{
    let mut bytes = ArrayVec::new();
    if let Some(opened) = slot {
        bytes.push(opened.mode);
        bytes.push((opened.next / 256) as u8);
        bytes.push((opened.next % 256) as u8);
        bytes.try_extend_from_slice(opened.name.as_bytes()).unwrap();
    }
    bytes
}

/// What is open where it has these bytes.
pub(crate) fn opened_of(bytes: &[u8]) -> Result<Option<Opened>, PartsFault>
    ensures ok { IfOk result (λ slot. bytes.now ≡ opened_text slot) }
    ensures named { IfOk result IsNamed }
    ensures form { IsErr result
        → (slot : Option Opened) → IsNamed slot → ¬ (bytes.now ≡ opened_text slot) }
{
    match bytes {
        [] => Ok(None),
        [mode, high, low, name @ ..] => match DbName::new(name) {
            Ok(name) => Ok(Some(Opened {
                name,
                mode: *mode,
                next: number_of(*high, *low),
            })),
            Err(_) => Err(PartsFault::Form),
        },
        _ => Err(PartsFault::Form),
    }
}
