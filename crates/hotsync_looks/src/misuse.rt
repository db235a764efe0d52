// Words that ask for nothing, and the word at fault.
ghost use Rattle.std.specs.Prelude.{◌≡◌, ◌⊎◌, ◌≤◌, option_map};
ghost use Rattle.hotsync_looks.specs.Misuses.{IsMisuse, TellsFault};
ghost use Rattle.cmd_status.specs.Printed.{IsPrinted};
ghost use Rattle.cmd_status.specs.Told.{sink_told};
ghost use Rattle.run_words.specs.Views.{fault_view};

use cmd_status::{Status, print_refusal};
use hs_folders::Sink;
use run_words::{CommandWord, WordFault};
use std::alloc::{AllocError, Global};

/// Prints how the command is called, and behind it the word at fault where it can be named.
pub fn print_misuse<O: Sink>(
    alloc: Global,
    command: Option<CommandWord>,
    fault: Option<WordFault<'_>>,
    out: &mut O,
) -> Status
    ensures status { IsMisuse result ⊎ (result ≡ Status.NoMemory) }
    ensures fault { TellsFault command (option_map fault_view fault.entry) result }
    ensures printed { IsPrinted (λ text. ⊥)
        (sink_told O.Sink out.old) (sink_told O.Sink out.new) result }
    ensures count { O.faults out.old ≤ O.faults out.new }
{
    let refusal = usage_status(alloc, command, fault);
    print_refusal(alloc, refusal, out)
}

// The status of words that ask for nothing, with the word at fault where it can be named.
fn usage_status(alloc: Global, command: Option<CommandWord>, fault: Option<WordFault<'_>>) -> Status
    ensures { TellsFault command (option_map fault_view fault.entry) result }
{
    let Some(WordFault { kind, word }) = fault else {
        return Status::Usage;
    };
    match String::from_str(alloc, word) {
        Ok(word) => Status::BadWord {
            command,
            kind,
            word,
        },
        Err(AllocError) => Status::NoMemory,
    }
}
