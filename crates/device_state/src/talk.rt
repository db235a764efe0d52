//! What a talk holds beside its folder, as bytes.
ghost use Rattle.std.specs.Prelude.{◌≡◌, ◌++◌, ℕ, List, IfOk, IsErrOf, OnOk, length};
ghost use Rattle.device_state.specs.Opened.{AreNamed};
ghost use Rattle.device_state.specs.Texts.{talk_text};
ghost use Rattle.device_stream.specs.declared.parts.TalkParts.{TalkParts};

use crate::handles::{next_handles, push_handles};
use crate::numbers::{numbers_of, parts_of};
use crate::strings::{next_string, push_string};
use device_stream::{PartsFault, TalkParts};
use std::alloc::{AllocError, Global};

/// What a talk holds, and the bytes behind it.
#[derive(Drop)]
pub struct TalkFront<'a> {
    pub parts: TalkParts,
    pub rest: &'a [u8],
}

/// Appends what a talk holds. After a refusal of memory some of it may stand there.
pub fn push_talk(out: &mut Vec<u8>, parts: &TalkParts) -> Result<(), AllocError>
    ensures ok { OnOk result (out.new.items ≡ out.old.items ++ talk_text parts.now) }
    ensures named { OnOk result (AreNamed parts.now.handles) }
{
    push_string(out, &numbers_of(parts))?;
    push_string(out, &parts.end.receiver.received)?;
    push_string(out, &parts.end.message)?;
    push_handles(out, &parts.handles)
}

/// What a talk holds, from the front of bytes.
pub fn read_talk(alloc: Global, bytes: &[u8]) -> Result<TalkFront<'_>, PartsFault>
    ensures ok { IfOk result (λ front. bytes.now ≡ talk_text front.parts ++ front.rest.now) }
    ensures eight { IfOk result (λ front. length front.parts.handles ≡ 8) }
    ensures named { IfOk result (λ front. AreNamed front.parts.handles) }

    // No bytes of a talk are refused for their form.
    ensures form { IsErrOf result PartsFault.Form → (parts : TalkParts) (rest : List ℕ)
        → AreNamed parts.handles → ¬ (bytes.now ≡ talk_text parts ++ rest) }
{
    let numbers = next_string(bytes).ok_or(PartsFault::Form)?;
    let received = next_string(numbers.rest).ok_or(PartsFault::Form)?;
    let message = next_string(received.rest).ok_or(PartsFault::Form)?;
    let (handles, rest) = next_handles(message.rest)?;
    let received = Vec::from_slice(alloc, received.string)?;
    let message = Vec::from_slice(alloc, message.string)?;
    let parts = parts_of(numbers.string, received, message, handles).ok_or(PartsFault::Form)?;
    Ok(TalkFront { parts, rest })
}
