// How a command is called, where its words ask for nothing.
ghost use Rattle.std.specs.Prelude.{◌≡◌, ◌++◌, IfOk, OnOk, string_bytes};
ghost use Rattle.cmd_status.specs.Usages as usages;

use crate::commands::{COMMANDS, command_name, command_rows};
use run_words::CommandWord;
use std::alloc::{AllocError, Global};

/// How the program is called.
const USAGE: &str =
    "usage: hotsync run HANDHELD DESKTOP --date=D [--script=F] [--trace=F] [--only=L] [--slow] [--actions=L] [--add-user]\n";

/// How a command is called.
pub fn synopsis(command: CommandWord) -> &'static str
    ensures { result.now ≡ usages.synopsis command }
{
    match command {
        CommandWord::Run => {
            "hotsync run {HANDHELD [--script=F] [--dry-run] | --port=PORT} DESKTOP --date=D [--trace=F] [--only=L] [--slow] [--actions=L] [--user=NAME] [--add-user]"
        }
        CommandWord::Check => "hotsync check FILE",
        CommandWord::Show => "hotsync show FILE [--records]",
        CommandWord::Export => {
            "hotsync export FILE --as=FORM [--date=D] [--without-private] [--keep-broken] [--raw]"
        }
        CommandWord::Import => "hotsync import FILE --as=txt [--like=FILE]",
        CommandWord::Verify => "hotsync verify FILE",
        CommandWord::Picture => "hotsync picture FILE",
        CommandWord::Packet => "hotsync packet HEX",
        CommandWord::Install => "hotsync install HANDHELD FILE [--trace=F]",
        CommandWord::Backup => {
            "hotsync backup {HANDHELD [--script=F] | --port=PORT} FOLDER [--trace=F]"
        }
        CommandWord::Restore => "hotsync restore HANDHELD FOLDER [--script=F] [--trace=F]",
        CommandWord::Device => {
            "hotsync device HANDHELD {--in=F --out=F | --port=PORT [--trace=F]}"
        }
        CommandWord::Categories => "hotsync categories HANDHELD DESKTOP [--script=F] [--trace=F]",
        CommandWord::Sync => {
            "hotsync sync PORT DESKTOP --date=D [--only=L] [--trace=F] [--slow] [--actions=L] [--user=NAME] [--add-user]"
        }
        CommandWord::Make => "hotsync make SEED N",
    }
}

// Appends the line that says how a command is called. That of `run` is the program's, too.
#[tactic(auto, unfolding(crate::specs::Usages::usage_of))]
pub(crate) fn push_usage(lines: &mut String, command: Option<CommandWord>) -> Result<(), AllocError>
    ensures { OnOk result (string_bytes lines.new ≡ string_bytes lines.old ++ usages.usage_of command) }
{
    match command {
        None | Some(CommandWord::Run) => lines.push_str(USAGE),
        Some(command) => push_own(lines, command),
    }
}

fn push_own(lines: &mut String, command: CommandWord) -> Result<(), AllocError>
    ensures { OnOk result (string_bytes lines.new ≡ string_bytes lines.old ++ usages.own_usage command) }
{
    lines.push_str("usage: ")?;
    lines.push_str(synopsis(command))?;
    lines.push_str("\n")?;
    Ok(())
}

// Appends the line that says where more is said of a command, or of all.
#[tactic(auto, unfolding(crate::specs::Usages::way_on))]
pub(crate) fn push_way_on(
    lines: &mut String,
    command: Option<CommandWord>,
) -> Result<(), AllocError>
    ensures { OnOk result (string_bytes lines.new ≡ string_bytes lines.old ++ usages.way_on command) }
{
    match command {
        None => lines.push_str("more: hotsync help\n"),
        Some(command) => push_more(lines, command),
    }
}

fn push_more(lines: &mut String, command: CommandWord) -> Result<(), AllocError>
    ensures { OnOk result (string_bytes lines.new ≡ string_bytes lines.old ++ usages.more_of command) }
{
    lines.push_str("more: hotsync help ")?;
    lines.push_str(command_name(command))?;
    lines.push_str("\n")?;
    Ok(())
}

/// How the program is called, where no word can be named: the line of `run`, and behind it the commands.
#[tactic(auto, unfolding(crate::specs::Usages::usage_lines))]
pub(crate) fn usage_lines(alloc: Global) -> Result<String, AllocError>
    ensures { IfOk result (λ text. string_bytes text ≡ usages.usage_lines) }
{
    let rows = command_rows(alloc, COMMANDS)?;
    let mut text = String::from_str(alloc, USAGE)?;
    text.push_str("commands:\n")?;
    text.push_str(rows.as_str())?;
    text.push_str("more: hotsync help COMMAND\n")?;
    Ok(text)
}
