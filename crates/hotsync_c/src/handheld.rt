//! A handheld in its caller's memory.

ghost use Rattle.std.specs.Prelude.{◌≡◌, ◌≤◌, length, pos, take};
ghost use Rattle.device_state.specs.Calls.{HasFiles};
ghost use Rattle.device_state.specs.Refusals.{RefusesList, SaysNone};
ghost use Rattle.hotsync_c.specs.Answers.{AnswersBy};
ghost use Rattle.hotsync_c.specs.Handhelds.{AnswersStep, IsFirstStep, IsNextStep, IsStepOf, PutsStep, RefusesFirst, fault_answer, phase_of, rooms_of};

use crate::room::put;
use device_state::{StateFault, Step, files_in, new_state, next_state};
use device_stream::TalkEnd;
use std::alloc::Global;

/// How much a handheld said, and how far its talk is.
#[repr(C)]
#[derive(Clone, Copy)]
pub struct HsTold {
    /// How many bytes go back over the line.
    pub said: u64,
    /// 0: the talk goes on; it is over, 1: ended, 2: aborted by the desktop, 3: not begun by an init; 4: the piece that waits
    /// had its ten tries.
    pub phase: u32,
}

/// Puts a handheld with these files into `state`, and into `room` what it says first, its wake. The files are a list: for
/// each its name and then its bytes, both behind their length, a number of eight bytes with the highest first. Where one of
/// the rooms is too small neither is written.
///
/// The answer is how long the state is, and `told` says how much is said; or -2 for bytes that are no list of files, -10
/// where no handheld has such files, since there are more than 200 databases or one is bad, or -1 where memory was refused:
/// then `told` is as it was.
#[unsafe(no_mangle)]
pub extern "C" fn hs_device_new(
    alloc: Global,
    files: &[u8],
    state: &mut [u8],
    room: &mut [u8],
    told: &mut HsTold,
) -> i64
    ensures { AnswersStep (IsFirstStep files.now) (RefusesList files.now)
        (rooms_of state.old room.old told.old) (rooms_of state.new room.new told.new) result }
{
    match new_state(alloc, files) {
        Ok(step) => put_step(&step, state, room, told),
        Err(fault) => fault_answer(fault),
    }
}

/// Lets the handheld in the first `count` bytes of `state` hear bytes of the line, or for none a tick of silence, and puts
/// what it is then in their place, and what it says into `room`. Packets may come in any pieces. Where one of the rooms is
/// too small neither is written, and the call can be made again with more.
///
/// The answer is how long the state is then, and `told` says how much is said and how far the talk is; or -2 for bytes that
/// are no handheld, -10 where its files are none that a handheld has, or -1 where memory was refused: then `told` is as it
/// was.
#[unsafe(no_mangle)]
pub extern "C" fn hs_device_take(
    alloc: Global,
    state: &mut [u8],
    count: usize,
    bytes: &[u8],
    room: &mut [u8],
    told: &mut HsTold,
) -> i64
    ensures { AnswersStep (IsNextStep (take count state.old) bytes.now) (RefusesFirst state.old count)
        (rooms_of state.old room.old told.old) (rooms_of state.new room.new told.new) result }
{
    match step_of(alloc, state, count, bytes) {
        Ok(step) => put_step(&step, state, room, told),
        Err(fault) => fault_answer(fault),
    }
}

/// Puts the list of the files that a handheld has into the room. The files are not looked into.
///
/// The answer is how long it is; or -2 for bytes that are no state of a handheld, or -1 where memory was refused.
#[unsafe(no_mangle)]
pub extern "C" fn hs_device_files(alloc: Global, state: &[u8], room: &mut [u8]) -> i64
    ensures { AnswersBy fault_answer (HasFiles state.now) (SaysNone state.now)
        room.old room.new result }
{
    match files_in(alloc, state) {
        Ok(list) => put(list, room),
        Err(fault) => fault_answer(fault),
    }
}

// What the handheld at the front of a room makes of bytes.
fn step_of(alloc: Global, room: &[u8], count: usize, bytes: &[u8]) -> Result<Step, StateFault>
    ensures { IsStepOf room.now count bytes.now result }
{
    match room.get(..count) {
        Some(state) => next_state(alloc, state, bytes),
        None => Err(StateFault::Form),
    }
}

// Puts a step into both rooms where it fits, and tells of it.
fn put_step(step: &Step, state: &mut [u8], room: &mut [u8], told: &mut HsTold) -> i64
    ensures { PutsStep step.now.state.items step.now.said.items (phase_of step.now.over step.now.spent)
        (rooms_of state.old room.old told.old) (rooms_of state.new room.new told.new) result }
{
    told.said = step.said.len() as u64;
    told.phase = phase_of(step);
    if step.state.len() <= state.len() && step.said.len() <= room.len() {
        state[..step.state.len()].copy_from_slice(&step.state);
        room[..step.said.len()].copy_from_slice(&step.said);
    }
    step.state.len() as i64
}

// The number of how far a talk is.
fn phase_of(step: &Step) -> u32
    ensures { result ≡ phase_of step.now.over step.now.spent }
{
    match step.over {
        None if step.spent => 4,
        None => 0,
        Some(TalkEnd::Ended) => 1,
        Some(TalkEnd::Aborted) => 2,
        Some(TalkEnd::BadHello) => 3,
    }
}

// The number that C gets for a refusal.
fn fault_answer(fault: StateFault) -> i64
    ensures { result ≡ fault_answer fault }
{
    match fault {
        StateFault::NoMemory => -1,
        StateFault::Form => -2,
        StateFault::BadFiles => -10,
    }
}
