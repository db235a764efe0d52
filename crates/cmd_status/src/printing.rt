// What a call prints, and the status that stands once it is printed.
ghost use Rattle.std.specs.Prelude.{◌≡◌, ◌⊎◌, ◌≤◌};
ghost use Rattle.cmd_status.specs.Lines.{no_memory_line};
ghost use Rattle.cmd_status.specs.Printed.{IsPrinted, IsRefusal};
ghost use Rattle.cmd_status.specs.Told.{sink_told};
ghost use Rattle.hs_folders.specs.Appends.{AppendsPrefix};

use crate::refusal_line::refusal_line;
use crate::status::Status;
use hs_folders::{Sink, SinkFault};
use std::alloc::Global;

const NO_MEMORY: &[u8] = b"no memory\n";

/// Prints the text of what was done. A failing sink makes the status `OutWrite`.
#[tactic(auto, using(crate::proofs::PrintedLaws::memory_printed))]
pub fn print_text<O: Sink>(text: &[u8], out: &mut O) -> Status
    ensures status { (result ≡ Status.Done) ⊎ (result ≡ Status.OutWrite) ⊎
        (result ≡ Status.NoMemory) }
    ensures printed { IsPrinted (λ printed. printed ≡ text.now)
        (sink_told O.Sink out.old) (sink_told O.Sink out.new) result }
    ensures count { O.faults out.old ≤ O.faults out.new }
{
    match out.write_all(text) {
        Ok(()) => Status::Done,
        Err(SinkFault::Failed) => Status::OutWrite,
        Err(SinkFault::NoMemory) => print_no_memory(out),
    }
}

/// Prints the line of a refusal. The refusal stands also where the sink fails.
#[tactic(auto, using(crate::proofs::PrintedLaws::memory_printed))]
pub fn print_refusal<O: Sink>(alloc: Global, refusal: Status, out: &mut O) -> Status
    requires { IsRefusal refusal ⊎ (refusal ≡ Status.NoMemory) }
    ensures status { (result ≡ refusal) ⊎ (result ≡ Status.NoMemory) }
    ensures printed { IsPrinted (λ text. ⊥)
        (sink_told O.Sink out.old) (sink_told O.Sink out.new) result }
    ensures count { O.faults out.old ≤ O.faults out.new }
{
    match refusal {
        Status::NoMemory => print_no_memory(out),
        refusal => print_line(alloc, refusal, out),
    }
}

// The same of another refusal than want of memory.
#[tactic(auto, using(crate::proofs::PrintedLaws::memory_printed))]
fn print_line<O: Sink>(alloc: Global, refusal: Status, out: &mut O) -> Status
    requires { IsRefusal refusal }
    ensures status { (result ≡ refusal) ⊎ (result ≡ Status.NoMemory) }
    ensures printed { IsPrinted (λ text. ⊥)
        (sink_told O.Sink out.old) (sink_told O.Sink out.new) result }
    ensures count { O.faults out.old ≤ O.faults out.new }
{
    let Ok(line) = refusal_line(alloc, &refusal) else {
        return print_no_memory(out);
    };
    match out.write_all(line.as_bytes()) {
        Ok(()) | Err(SinkFault::Failed) => refusal,
        Err(SinkFault::NoMemory) => print_no_memory(out),
    }
}

/// Prints the one line that takes no memory to make.
#[tactic(auto, using(hs_folders::proofs::Prefixes::all_taken))]
pub fn print_no_memory<O: Sink>(out: &mut O) -> Status
    ensures status { result ≡ Status.NoMemory }
    ensures lines { AppendsPrefix (O.taken out.old) (O.taken out.new) no_memory_line }
    ensures paths { O.paths out.new ≡ O.paths out.old }
    ensures count { O.faults out.old ≤ O.faults out.new }
{
    match out.write_all(NO_MEMORY) {
        Ok(()) | Err(_) => Status::NoMemory,
    }
}
