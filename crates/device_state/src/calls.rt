//! The calls of a handheld in memory.
ghost use Rattle.std.specs.Prelude.{◌≡◌, None, false, true, IfErr, IfOk};
ghost use Rattle.palm_device.specs.Soundness.{IsDevice};
ghost use Rattle.device_state.specs.Calls.{Begins, GoesOn, HasFiles};
ghost use Rattle.device_state.specs.Refusals.{RefusesList, RefusesState, SaysNone};
ghost use Rattle.device_state.specs.States.{IsState, StandsByHand};

use crate::fault::StateFault;
use crate::files::read_files;
use crate::hearing::{Heard, hear_any};
use crate::state::{StateFront, open_files, read_front, write_state};
use arrayvec::ArrayVec;
use device_stream::{Talk, TalkEnd};
use handheld_server::Server;
use hs_folders::{Folder, MemFolder};
use std::alloc::{AllocError, Global};

/// What a call makes of a handheld, and what the handheld says.
#[derive(Drop)]
pub struct Step {
    /// The bytes of the handheld.
    pub state: Vec<u8>,
    /// The bytes that go back over the line.
    pub said: Vec<u8>,
    /// How its talk is over, once it is.
    pub over: Option<TalkEnd>,
    /// Whether the piece that waits had its ten tries, where this call was silence.
    pub spent: bool,
}

/// A handheld with the files of a list, which says its wake.
pub fn new_state(alloc: Global, list: &[u8]) -> Result<Step, StateFault>
    ensures begins { IfOk result (λ step. Begins list.now step.state.items step.said.items) }
    ensures going { IfOk result (λ step. step.over ≡ None) }
    ensures fresh { IfOk result (λ step. step.spent ≡ false) }
    ensures refused { IfErr result (RefusesList list.now) }
{
    let store = open_files(alloc, list)?;
    let mut out = ArrayVec::new();
    let Ok(talk) = Talk::new(alloc, Server::new(store), &mut out) else {
        return Err(StateFault::NoMemory);
    };
    let heard = Heard {
        said: Vec::from_slice(alloc, &out)?,
        left: Vec::new(alloc),
        spent: false,
    };
    Ok(step_of(alloc, talk, heard)?)
}

/// What a handheld makes of bytes that come; no bytes are a tick of silence.
pub fn next_state(alloc: Global, state: &[u8], bytes: &[u8]) -> Result<Step, StateFault>
    ensures goes_on { IfOk result (λ step. GoesOn state.now bytes.now step.state.items
        step.said.items step.over step.spent) }
    ensures refused { IfErr result (RefusesState state.now) }
{
    let (mut talk, held) = talk_of(alloc, state)?;
    let heard = hear_any(alloc, &mut talk, held, bytes)?;
    Ok(step_of(alloc, talk, heard)?)
}

// The talk of a handheld, and the bytes of the next packet that it holds.
fn talk_of(alloc: Global, state: &[u8]) -> Result<(Talk<MemFolder>, &[u8]), StateFault>
    ensures is { IfOk result (λ made. IsState state.now made.0.hand made.1.now) }
    ensures stands { IfOk result (λ made. StandsByHand ⟦<MemFolder as Folder>⟧.contents made.0) }
    ensures sound { IfOk result (λ made. made.0.sound ≡ true) }
    ensures device { IfOk result (λ made. IsDevice made.0.hand.device) }
    ensures refused { IfErr result (RefusesState state.now) }
{
    let StateFront { parts, held, files } = read_front(alloc, state)?;
    let store = open_files(alloc, files)?;
    let talk = Talk::of_parts(alloc, store, parts)?;
    Ok((talk, held))
}

// What a call leaves that ends with this talk, which heard this.
fn step_of(alloc: Global, talk: Talk<MemFolder>, heard: Heard) -> Result<Step, AllocError>
    requires stands { StandsByHand ⟦<MemFolder as Folder>⟧.contents talk }
    requires device { IsDevice talk.hand.device }
    ensures state { IfOk result (λ step. IsState step.state.items talk.hand heard.left.items) }
    ensures said { IfOk result (λ step. step.said ≡ heard.said) }
    ensures over { IfOk result (λ step. step.over ≡ talk.hand.over) }
    ensures spent { IfOk result (λ step. step.spent ≡ heard.spent) }
{
    let over = talk.over();
    let Heard { said, left, spent } = heard;
    let state = write_state(alloc, talk, &left)?;
    Ok(Step {
        state,
        said,
        over,
        spent,
    })
}

/// The list of the files that a handheld has. The files are not opened for it: whether a handheld holds them is not asked.
pub fn files_in(alloc: Global, state: &[u8]) -> Result<&[u8], StateFault>
    ensures files { IfOk result (λ list. HasFiles state.now list.now) }
    ensures refused { IfErr result (SaysNone state.now) }
{
    let StateFront { parts, files, .. } = read_front(alloc, state)?;
    let _folder = read_files(alloc, files)?;
    let _end = parts.make_end(alloc)?;
    Ok(files)
}
