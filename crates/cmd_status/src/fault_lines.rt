// The word at fault in words that ask for nothing.
ghost use Rattle.std.specs.Prelude.{◌≡◌, IfOk, string_bytes};
ghost use Rattle.cmd_status.specs.Lines.{fault_lines as lines_of_fault, fault_words as words_of_fault};

use crate::printed_name::push_name;
use crate::reasons::reason;
use crate::usage::{push_usage, push_way_on};
use run_words::{CommandWord, FaultKind};
use std::alloc::{AllocError, Global};

// What is wrong with the word that stands behind it.
fn fault_words(kind: FaultKind) -> &'static str
    ensures { result.now ≡ words_of_fault kind }
{
    match kind {
        FaultKind::UnknownCommand => "unknown command ",
        FaultKind::UnknownOption => "unknown option ",
        FaultKind::NoValue => "missing value ",
        FaultKind::ExtraValue => "unexpected value ",
        FaultKind::Twice => "twice --",
        FaultKind::Extra => "unexpected word ",
        FaultKind::Missing => "missing --",
        FaultKind::TooFew => "too few words behind ",
        FaultKind::BadOption => "bad --",
        FaultKind::BadWord => "bad word ",
    }
}

/// How a command is called, then the word at fault with the reason beside it, and where more is said.
#[tactic(auto, unfolding(crate::specs::Lines::fault_lines))]
pub(crate) fn fault_lines(
    alloc: Global,
    command: Option<CommandWord>,
    kind: FaultKind,
    word: &str,
) -> Result<String, AllocError>
    ensures { IfOk result (λ lines. string_bytes lines ≡ lines_of_fault command kind word.now) }
{
    let mut lines = String::new(alloc);
    push_usage(&mut lines, command)?;
    lines.push_str(fault_words(kind))?;
    push_name(&mut lines, word)?;
    lines.push_str(reason(command, kind, word))?;
    lines.push_str("\n")?;
    push_way_on(&mut lines, command)?;
    Ok(lines)
}
