//! A talk hears bytes, or silence.
ghost use Rattle.std.specs.Prelude.{◌≡◌, ◌∷◌, [], None, Some, false, true, IfOk, OnOk};
ghost use Rattle.palm_device.specs.Soundness.{IsDevice};
ghost use Rattle.slp_frames.specs.PacketValues.{lent_value};
ghost use Rattle.slp_frames.specs.Streams.{IsDrained};
ghost use Rattle.device_stream.specs.Courses.{HasTalked, Hears, IsReady, PerformsAny};
ghost use Rattle.device_state.specs.Calls.{HearsAny};
ghost use Rattle.device_state.specs.Hearing.{HearsBytes, HearsSilence};
ghost use Rattle.device_state.specs.States.{StandsByHand};

use arrayvec::ArrayVec;
use device_stream::{MAX_SAID, Talk};
use hs_folders::Folder;
use slp_frames::{PacketLent, SlpReader};
use std::alloc::{AllocError, Global};

/// What was said, the bytes that are no whole packet yet, and whether the piece that waits had its ten tries.
#[derive(Drop)]
pub(crate) struct Heard {
    pub(crate) said: Vec<u8>,
    pub(crate) left: Vec<u8>,
    pub(crate) spent: bool,
}

/// Hears bytes behind those that are held, or for none a tick of silence.
pub(crate) fn hear_any<F: Folder>(
    alloc: Global,
    talk: &mut Talk<F>,
    held: &[u8],
    bytes: &[u8],
) -> Result<Heard, AllocError>
    requires { talk.old.sound ≡ true }
    ensures hears { IfOk result (λ heard. HearsAny talk.old.hand held.now bytes.now heard.said.items
        talk.new.hand heard.left.items heard.spent) }
    ensures stands { OnOk result (StandsByHand F.contents talk.old
        → StandsByHand F.contents talk.new) }
    ensures device { OnOk result (IsDevice talk.old.hand.device → IsDevice talk.new.hand.device) }
{
    if bytes.is_empty() {
        return wait(alloc, talk, held);
    }
    let mut all = Vec::from_slice(alloc, held)?;
    all.extend_from_slice(bytes)?;
    hear(alloc, talk, &all)
}

// Takes the packets of these bytes, up to one by which the talk is over.
fn hear<F: Folder>(alloc: Global, talk: &mut Talk<F>, bytes: &[u8]) -> Result<Heard, AllocError>
    requires { talk.old.sound ≡ true }
    ensures hears { IfOk result (λ heard. HearsBytes talk.old.hand bytes.now heard.said.items
        talk.new.hand heard.left.items) }
    ensures waits { IfOk result (λ heard. heard.spent ≡ false) }
    ensures performs { OnOk result
        (PerformsAny F.contents F.moments F.paths F.faults talk.old talk.new) }
{
    let mut reader = SlpReader::new();
    let mut said = Vec::new(alloc);
    let mut rest = bytes;
    while !rest.is_empty() && talk.over().is_none() {
        let count = reader.feed(rest);
        rest = &rest[count..];
        drain(talk, &mut reader, &mut said)?;
    }
    if talk.over().is_some() {
        reader.gap();
    }
    let left = Vec::from_slice(alloc, reader.held())?;
    Ok(Heard {
        said,
        left,
        spent: false,
    })
}

// Takes the packets that the reader holds, up to one by which the talk is over.
fn drain<F: Folder>(
    talk: &mut Talk<F>,
    reader: &mut SlpReader,
    said: &mut Vec<u8>,
) -> Result<(), AllocError>
    requires { IsReady talk.old }
    ensures hears { OnOk result (Hears reader.old.held reader.new.held talk.old.hand talk.new.hand
        (Some said.old.items) (Some said.new.items)) }
    ensures drained { OnOk result (talk.new.hand.over ≡ None → IsDrained reader.new.held) }
    ensures sound { OnOk result (talk.new.sound ≡ true) }
    ensures performs { OnOk result
        (PerformsAny F.contents F.moments F.paths F.faults talk.old talk.new) }
{
    while let Some(packet) = reader.next() {
        take_packet(talk, packet, said)?;
        if talk.over().is_some() {
            return Ok(());
        }
    }
    Ok(())
}

// Takes one packet.
fn take_packet<F: Folder>(
    talk: &mut Talk<F>,
    packet: PacketLent<'_>,
    said: &mut Vec<u8>,
) -> Result<(), AllocError>
    requires { IsReady talk.old }
    ensures talked { OnOk result (HasTalked talk.old.hand talk.new.hand
        (Some said.old.items) (Some said.new.items) (lent_value packet.entry ∷ [])) }
    ensures sound { OnOk result (talk.new.sound ≡ true) }
    ensures performs { OnOk result
        (PerformsAny F.contents F.moments F.paths F.faults talk.old talk.new) }
{
    let mut out: ArrayVec<u8, MAX_SAID> = ArrayVec::new();
    if talk.take(packet, &mut out).is_err() {
        return Err(AllocError);
    }
    said.extend_from_slice(&out)?;
    Ok(())
}

// Lets a tick of silence pass.
fn wait<F: Folder>(alloc: Global, talk: &mut Talk<F>, held: &[u8]) -> Result<Heard, AllocError>
    ensures silence { IfOk result (λ heard. HearsSilence talk.old.hand heard.said.items
        talk.new.hand heard.spent) }
    ensures left { IfOk result (λ heard. heard.left.items ≡ held.now) }
    ensures folder { talk.new.folder ≡ talk.old.folder }
    ensures device { talk.new.hand.device ≡ talk.old.hand.device }
{
    let mut out: ArrayVec<u8, MAX_SAID> = ArrayVec::new();
    let spent = talk.over().is_none() && talk.wait(&mut out).is_err();
    let said = Vec::from_slice(alloc, &out)?;
    let left = Vec::from_slice(alloc, held)?;
    Ok(Heard { said, left, spent })
}
