//! A handheld is read from its bytes, and written.
ghost use Rattle.std.specs.Prelude.{◌≡◌, ◌++◌, ℕ, List, IfErr, IfOk, IsErrOf, length, true};
ghost use Rattle.device_state.specs.Strings.{string_text};
ghost use Rattle.handheld_files.specs.Openings.{opened_device};
ghost use Rattle.palm_device.specs.Soundness.{IsDevice};
ghost use Rattle.device_state.specs.Opened.{AreNamed};
ghost use Rattle.device_state.specs.Texts.{talk_text};
ghost use Rattle.device_state.specs.Refusals.{RefusesList};
ghost use Rattle.device_state.specs.States.{IsOpenedList, IsState, StandsByHand, mark};
ghost use Rattle.device_stream.specs.declared.parts.TalkParts.{TalkParts};

use crate::fault::StateFault;
use crate::files::{push_files, read_files};
use crate::strings::{next_string, push_string};
use crate::talk::{TalkFront, push_talk, read_talk};
use device_stream::{Talk, TalkParts};
use handheld_files::OpenFault;
use handheld_store::Store;
use hs_folders::{Folder, MemFolder};
use std::alloc::{AllocError, Global};

// What the bytes of a handheld begin with.
const MARK: [u8; 4] = *b"HSD1";

/// What the bytes of a handheld say: what its talk holds, the bytes that are no whole packet yet, and the list of its files.
#[derive(Drop)]
pub(crate) struct StateFront<'a> {
    pub(crate) parts: TalkParts,
    pub(crate) held: &'a [u8],
    pub(crate) files: &'a [u8],
}

/// Reads the bytes of a handheld up to its files.
pub(crate) fn read_front(alloc: Global, state: &[u8]) -> Result<StateFront<'_>, StateFault>
    ensures is { IfOk result (λ front. state.now ≡ mark
        ++ (talk_text front.parts ++ (string_text front.held.now ++ front.files.now))) }
    ensures eight { IfOk result (λ front. length front.parts.handles ≡ 8) }
    ensures named { IfOk result (λ front. AreNamed front.parts.handles) }
    ensures form { IsErrOf result StateFault.Form → (parts : TalkParts) (held rest : List ℕ) →
        length parts.handles ≡ 8 → AreNamed parts.handles
        → ¬ (state.now ≡ mark ++ (talk_text parts ++ (string_text held ++ rest))) }
    ensures files { ¬ IsErrOf result StateFault.BadFiles }
{
    let Some(rest) = state.strip_prefix(&MARK) else {
        return Err(StateFault::Form);
    };
    let TalkFront { parts, rest } = read_talk(alloc, rest)?;
    let Some(held) = next_string(rest) else {
        return Err(StateFault::Form);
    };
    Ok(StateFront {
        parts,
        held: held.string,
        files: held.rest,
    })
}

/// Opens the handheld of the files of a list.
pub(crate) fn open_files(alloc: Global, list: &[u8]) -> Result<Store<MemFolder>, StateFault>
    ensures opened { IfOk result (λ store. IsOpenedList list.now
        (⟦<MemFolder as Folder>⟧.contents store.folder) store.databases store.user) }
    ensures sound { IfOk result (λ store. store.sound ≡ true) }
    ensures device { IfOk result (λ store. IsDevice (opened_device store.databases store.user)) }
    ensures refused { IfErr result (RefusesList list.now) }
{
    let folder = read_files(alloc, list)?;
    match Store::open_folder(alloc, folder) {
        Ok(store) => Ok(store),
        Err((OpenFault::TooMany | OpenFault::BadFile { .. }, _)) => Err(StateFault::BadFiles),
        Err((OpenFault::Keeper | OpenFault::NoMemory, _)) => Err(StateFault::NoMemory),
    }
}

/// Writes a handheld that holds these bytes of the next packet.
pub(crate) fn write_state(
    alloc: Global,
    talk: Talk<MemFolder>,
    held: &[u8],
) -> Result<Vec<u8>, AllocError>
    requires stands { StandsByHand ⟦<MemFolder as Folder>⟧.contents talk }
    requires device { IsDevice talk.hand.device }
    ensures { IfOk result (λ state. IsState state.items talk.hand held.now) }
{
    let (mut folder, parts) = talk.into_hand(alloc)?;
    folder.fail_calls(Vec::new(alloc));
    let mut state = Vec::from_slice(alloc, &MARK)?;
    push_talk(&mut state, &parts)?;
    push_string(&mut state, held)?;
    push_files(alloc, &mut state, &mut folder)?;
    Ok(state)
}
