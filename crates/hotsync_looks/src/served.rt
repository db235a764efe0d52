// What a handheld served.
ghost use Rattle.std.specs.Prelude.{◌≡◌, ◌⊎◌, IfOk, string_bytes};
ghost use Rattle.cmd_status.specs.Printed.{IsPrinted};
ghost use Rattle.hotsync_looks.specs.Served.{served_lines as lines_of_served};
ghost use Rattle.cmd_status.specs.Told.{sink_told};

use cmd_status::{Status, print_no_memory, print_text};
use hs_folders::Sink;
use std::alloc::{AllocError, Global};
use std::fmt::Write;

/// Prints how many requests were served by a talk that ended. A failing sink makes the status `OutWrite`.
#[tactic(auto, using(cmd_status::proofs::PrintedLaws::memory_printed))]
pub fn print_served<O: Sink>(alloc: Global, count: usize, out: &mut O) -> Status
    ensures status { (result ≡ Status.Done) ⊎ (result ≡ Status.OutWrite) ⊎
        (result ≡ Status.NoMemory) }
    ensures printed { IsPrinted (λ text. text ≡ lines_of_served count)
        (sink_told O.Sink out.old) (sink_told O.Sink out.new) result }
{
    match served_lines(alloc, count) {
        Ok(lines) => print_text(lines.as_bytes(), out),
        Err(AllocError) => print_no_memory(out),
    }
}

// The lines of so many requests.
#[tactic(auto, unfolding(crate::specs::Served::served_lines, cmd_status::specs::Lines::number_line))]
fn served_lines(alloc: Global, count: usize) -> Result<String, AllocError>
    ensures { IfOk result (λ lines. string_bytes lines ≡ lines_of_served count) }
{
    let mut lines = String::from_str(alloc, "served ")?;
    write!(lines, "{count}\n")?;
    lines.push_str("ended\n")?;
    Ok(lines)
}
