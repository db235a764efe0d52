//! The handles of a talk, as bytes.
ghost use Rattle.std.specs.Prelude.{◌≡◌, ◌++◌, ℕ, List, Option, IfOk, IsErr, OnOk, length};
ghost use Rattle.palm_device.specs.declared.opened.Opened.{Opened};
ghost use Rattle.device_state.specs.Opened.{AreNamed, handles_text};

use crate::opened::{opened_bytes, opened_of};
use crate::strings::{next_string, push_string};
use device_stream::PartsFault;
use palm_device::Handles;
use std::alloc::AllocError;

/// The highest handle.
const LAST: u8 = 8;

/// Appends what is open under each handle.
pub(crate) fn push_handles(out: &mut Vec<u8>, handles: &Handles) -> Result<(), AllocError>
    ensures ok { OnOk result (out.new.items ≡ out.old.items ++ handles_text 1 8 handles.now) }
    ensures named { OnOk result (AreNamed handles.now) }
{
    for handle in 1..=LAST {
        push_string(out, &opened_bytes(handles.opened_at(handle)))?;
    }
    Ok(())
}

/// The handles that the bytes begin with, and what stands behind them.
pub(crate) fn next_handles(bytes: &[u8]) -> Result<(Handles, &[u8]), PartsFault>
    ensures ok { IfOk result (λ front. bytes.now ≡ handles_text 1 8 front.0 ++ front.1.now) }
    ensures eight { IfOk result (λ front. length front.0 ≡ 8) }
    ensures named { IfOk result (λ front. AreNamed front.0) }
    ensures form { IsErr result → (handles : List (Option Opened)) (rest : List ℕ)
        → AreNamed handles → ¬ (bytes.now ≡ handles_text 1 8 handles ++ rest) }
{
    let mut handles = Handles::new();
    let mut rest = bytes;
    for handle in 1..=LAST {
        let front = next_string(rest).ok_or(PartsFault::Form)?;
        handles.set(handle, opened_of(front.string)?);
        rest = front.rest;
    }
    Ok((handles, rest))
}
