// The commands: their names, and what each does.
ghost use Rattle.std.specs.Prelude.{◌≡◌, IfOk, Some, string_bytes};
ghost use Rattle.std.specs.List.{flat_map};
ghost use Rattle.cmd_status.specs.Commands as spec;
ghost use Rattle.run_words.specs.Helps as helps;

use run_words::CommandWord;
use std::alloc::{AllocError, Global};

/// The commands, in the order in which help tells them.
pub const COMMANDS: &[CommandWord] = &[
    CommandWord::Run,
    CommandWord::Check,
    CommandWord::Show,
    CommandWord::Export,
    CommandWord::Import,
    CommandWord::Verify,
    CommandWord::Picture,
    CommandWord::Packet,
    CommandWord::Install,
    CommandWord::Backup,
    CommandWord::Restore,
    CommandWord::Device,
    CommandWord::Categories,
    CommandWord::Sync,
    CommandWord::Make,
];

/// The word that names a command.
pub fn command_name(command: CommandWord) -> &'static str
    ensures word { result.now ≡ spec.command_name command }
    ensures read { helps.command_word result.now ≡ Some command }
{
    match command {
        CommandWord::Run => "run",
        CommandWord::Check => "check",
        CommandWord::Show => "show",
        CommandWord::Export => "export",
        CommandWord::Import => "import",
        CommandWord::Verify => "verify",
        CommandWord::Picture => "picture",
        CommandWord::Packet => "packet",
        CommandWord::Install => "install",
        CommandWord::Backup => "backup",
        CommandWord::Restore => "restore",
        CommandWord::Device => "device",
        CommandWord::Categories => "categories",
        CommandWord::Sync => "sync",
        CommandWord::Make => "make",
    }
}

/// What a command does, in a sentence.
pub fn summary(command: CommandWord) -> &'static str
    ensures { result.now ≡ spec.summary command }
{
    match command {
        CommandWord::Run => "brings a handheld's folder and a desktop's together",
        CommandWord::Check => "says whether the file of a database is whole",
        CommandWord::Show => "says what a database holds",
        CommandWord::Export => "prints what the records of a database say",
        CommandWord::Import => "makes a database of a text of memos",
        CommandWord::Verify => "says whether a trace keeps each rule of the line",
        CommandWord::Picture => "makes a page of a trace, for a browser",
        CommandWord::Packet => "shows the packets in hexadecimal bytes",
        CommandWord::Install => "puts one file onto a handheld",
        CommandWord::Backup => "copies each database of a handheld into a folder",
        CommandWord::Restore => "puts the databases of a folder onto a handheld",
        CommandWord::Device => "is the handheld's end, over captured bytes or at a port",
        CommandWord::Categories => "brings the categories of both sides together",
        CommandWord::Sync => "synchronises the handheld at a port",
        CommandWord::Make => "synchronises two folders that it makes in memory",
    }
}

// The line of a command in the list of commands.
#[tactic(auto, unfolding(crate::specs::Commands::command_row))]
fn command_row(alloc: Global, command: CommandWord) -> Result<String, AllocError>
    ensures { IfOk result (λ text. string_bytes text ≡ spec.command_row command) }
{
    let mut row = String::from_str(alloc, "  ")?;
    row.push_str(command_name(command))?;
    row.push_str(": ")?;
    row.push_str(summary(command))?;
    row.push_str("\n")?;
    Ok(row)
}

/// The lines of these commands in the list of commands.
pub(crate) fn command_rows(alloc: Global, commands: &[CommandWord]) -> Result<String, AllocError>
    ensures { IfOk result (λ text. string_bytes text
        ≡ flat_map spec.command_row commands.now) }
{
    let mut text = String::new(alloc);
    for command in commands {
        let row = command_row(alloc, *command)?;
        text.push_str(row.as_str())?;
    }
    Ok(text)
}
