// The text of help, as tables.
ghost use Rattle.std.specs.Prelude.{◌≡◌, IfOk, string_bytes};
ghost use Rattle.std.specs.List.{flat_map};
ghost use Rattle.hotsync_looks.specs.HelpTexts as spec;

use cmd_status::{COMMANDS, summary, synopsis};
use run_words::{CommandWord, Topic};
use std::alloc::{AllocError, Global};

/// The program and its version.
const VERSION: &str = "hotsync 0.9.0\n";

/// An option in the text of help.
#[derive(Clone, Copy)]
pub enum OptionLine {
    /// `--date=D`.
    Date,
    /// `--date=now`.
    DateNow,
    /// `--script=F`.
    Script,
    /// `--trace=F`.
    Trace,
    /// `--in=F`.
    Input,
    /// `--out=F`.
    Output,
    /// `--port=PORT`.
    Port,
    /// `--slow`.
    Slow,
    /// `--actions=L`.
    Actions,
    /// `--actions=*:both`.
    ActionsBoth,
    /// `--only=L`.
    Only,
    /// `--user=NAME`.
    User,
    /// `--add-user`.
    AddUser,
    /// `--dry-run`.
    DryRun,
    /// `--as=txt`.
    AsText,
    /// `--as=vcf`.
    AsCards,
    /// `--as=csv`.
    AsTable,
    /// `--as=ics --date=D`.
    AsCalendar,
    /// `--without-private`.
    WithoutPrivate,
    /// `--keep-broken`.
    KeepBroken,
    /// `--raw`.
    Raw,
    /// `--records`.
    Records,
    /// `--like=FILE`.
    Like,
}

// The options of a command.
fn options(command: CommandWord) -> &'static [OptionLine]
    ensures { result.now ≡ spec.options command }
{
    match command {
        CommandWord::Run => &[
            OptionLine::Port,
            OptionLine::Date,
            OptionLine::DateNow,
            OptionLine::Script,
            OptionLine::Trace,
            OptionLine::Only,
            OptionLine::Slow,
            OptionLine::Actions,
            OptionLine::ActionsBoth,
            OptionLine::User,
            OptionLine::AddUser,
            OptionLine::DryRun,
        ],
        CommandWord::Check => &[],
        CommandWord::Show => &[OptionLine::Records],
        CommandWord::Export => &[
            OptionLine::AsText,
            OptionLine::AsCards,
            OptionLine::AsTable,
            OptionLine::AsCalendar,
            OptionLine::WithoutPrivate,
            OptionLine::KeepBroken,
            OptionLine::Raw,
        ],
        CommandWord::Import => &[OptionLine::AsText, OptionLine::Like],
        CommandWord::Verify => &[],
        CommandWord::Picture => &[],
        CommandWord::Packet => &[],
        CommandWord::Install => &[OptionLine::Trace],
        CommandWord::Backup => &[OptionLine::Port, OptionLine::Script, OptionLine::Trace],
        CommandWord::Restore => &[OptionLine::Script, OptionLine::Trace],
        CommandWord::Device => &[
            OptionLine::Input,
            OptionLine::Output,
            OptionLine::Port,
            OptionLine::Trace,
        ],
        CommandWord::Categories => &[OptionLine::Script, OptionLine::Trace],
        CommandWord::Sync => &[
            OptionLine::Date,
            OptionLine::DateNow,
            OptionLine::Only,
            OptionLine::Trace,
            OptionLine::Slow,
            OptionLine::Actions,
            OptionLine::ActionsBoth,
            OptionLine::User,
            OptionLine::AddUser,
        ],
        CommandWord::Make => &[],
    }
}

// What is said of an option.
fn option_words(option: OptionLine) -> &'static str
    ensures { result.now ≡ spec.option_words option }
{
    match option {
        OptionLine::Date => {
            "--date=D           the date of the session, YYYY-MM-DDTHH:MM:SS from 1904 to 2040"
        }
        OptionLine::DateNow => "--date=now         the date of the system's clock in UTC",
        OptionLine::Script => {
            "--script=F         what the line does to each frame, from the file F"
        }
        OptionLine::Trace => {
            "--trace=F          writes each frame that went over the line to the file F"
        }
        OptionLine::Input => "--in=F             the bytes that a handheld hears, from the file F",
        OptionLine::Output => "--out=F            the file F for the bytes that it says",
        OptionLine::Port => "--port=PORT        the port with the other end behind it",
        OptionLine::Slow => "--slow             reads every record of the handheld",
        OptionLine::Actions => {
            "--actions=L        what is done with single databases, as STEM:WORD,STEM:WORD.. with WORD one of sync, both, handheld, desktop, nothing"
        }
        OptionLine::ActionsBoth => {
            "--actions=*:both   keeps what is live on either side, as if they had never met"
        }
        OptionLine::Only => {
            "--only=L           the databases that are touched, as STEM,STEM.., the names of their files without .pdb"
        }
        OptionLine::User => {
            "--user=NAME        the name of the handheld's user, of 1 to 40 characters"
        }
        OptionLine::AddUser => {
            "--add-user         where the handheld's user is unknown to the desktop, a place of its own is made"
        }
        OptionLine::DryRun =>
            "--dry-run          prints what the run would print, and changes nothing in either folder",
        OptionLine::AsText => "--as=txt           the memos as text in UTF-8",
        OptionLine::AsCards => "--as=vcf           addresses as vCards",
        OptionLine::AsTable => "--as=csv           addresses or tasks as a table",
        OptionLine::AsCalendar => "--as=ics --date=D  tasks or dates as an iCalendar object",
        OptionLine::WithoutPrivate => "--without-private  without the records that are private",
        OptionLine::KeepBroken => {
            "--keep-broken      a record that is out of its form stands in the text with its bytes"
        }
        OptionLine::Raw => "--raw              the fields of a table as they are, formulas too",
        OptionLine::Records => {
            "--records          the bytes of each entry as text, behind its line"
        }
        OptionLine::Like => "--like=FILE        the categories of the database in FILE",
    }
}

// How it is called, for example.
fn first_example(command: CommandWord) -> &'static str
    ensures { result.now ≡ spec.first_example command }
{
    match command {
        CommandWord::Run => "hotsync run handheld desktop --date=now",
        CommandWord::Check => "hotsync check MemoDB.pdb",
        CommandWord::Show => "hotsync show MemoDB.pdb",
        CommandWord::Export => "hotsync export MemoDB.pdb --as=txt >memos.txt",
        CommandWord::Import => "hotsync import memos.txt --as=txt >new.pdb",
        CommandWord::Verify => "hotsync verify trace.txt",
        CommandWord::Picture => "hotsync picture trace.txt >trace.html",
        CommandWord::Packet => "hotsync packet beefed030302000401a702c00002ce11",
        CommandWord::Install => "hotsync install handheld Chess.prc",
        CommandWord::Backup => "hotsync backup handheld backup",
        CommandWord::Restore => "hotsync restore handheld backup",
        CommandWord::Device => "hotsync device handheld --in=sent --out=answer",
        CommandWord::Categories => "hotsync categories handheld desktop",
        CommandWord::Sync => "hotsync-port /dev/ttyUSB0 sync desktop --date=now",
        CommandWord::Make => "hotsync make 7 1500",
    }
}

// And in another way.
fn second_example(command: CommandWord) -> &'static str
    ensures { result.now ≡ spec.second_example command }
{
    match command {
        CommandWord::Run => "hotsync run handheld desktop --date=now --dry-run",
        CommandWord::Check => "hotsync check handheld/MemoDB.pdb",
        CommandWord::Show => "hotsync show MemoDB.pdb --records",
        CommandWord::Export => "hotsync export DatebookDB.pdb --as=ics --date=now >dates.ics",
        CommandWord::Import => "hotsync import memos.txt --as=txt --like=MemoDB.pdb >new.pdb",
        CommandWord::Verify => {
            "hotsync run handheld desktop --date=now --trace=new.txt && hotsync verify new.txt"
        }
        CommandWord::Picture => {
            "hotsync run handheld desktop --date=now --trace=new.txt && hotsync picture new.txt >new.html"
        }
        CommandWord::Packet => {
            "hotsync packet $(head -c 4096 sent | od -An -v -tx1 | tr -cd 0-9a-f)"
        }
        CommandWord::Install => "hotsync install handheld MemoDB.pdb --trace=new.txt",
        CommandWord::Backup => "hotsync-port /dev/ttyUSB0 backup backup",
        CommandWord::Restore => "hotsync backup handheld backup && hotsync restore other backup",
        CommandWord::Device => "hotsync-port /dev/ttyUSB0 device handheld",
        CommandWord::Categories => {
            "hotsync categories handheld desktop && hotsync run handheld desktop --date=now"
        }
        CommandWord::Sync => {
            "hotsync-port /dev/ttyUSB0 sync desktop --date=now --only=MemoDB,ToDoDB"
        }
        CommandWord::Make => "hotsync make 1 10",
    }
}

// A line behind two spaces.
fn indented(alloc: Global, line: &str) -> Result<String, AllocError>
    ensures { IfOk result (λ text. string_bytes text ≡ spec.indented line.now) }
{
    let mut text = String::from_str(alloc, "  ")?;
    text.push_str(line)?;
    text.push_str("\n")?;
    Ok(text)
}

// The lines of one of all commands: how it is called, and what it does.
#[tactic(auto, unfolding(crate::specs::HelpTexts::command_lines))]
fn command_lines(alloc: Global, command: CommandWord) -> Result<String, AllocError>
    ensures { IfOk result (λ text. string_bytes text ≡ spec.command_lines command) }
{
    let mut text = indented(alloc, synopsis(command))?;
    let does = indented(alloc, summary(command))?;
    text.push_str("    ")?;
    text.push_str(does.as_str())?;
    Ok(text)
}

// The lines of these commands.
fn commands_text(alloc: Global, commands: &[CommandWord]) -> Result<String, AllocError>
    ensures { IfOk result (λ text. string_bytes text
        ≡ flat_map spec.command_lines commands.now) }
{
    let mut text = String::new(alloc);
    for command in commands {
        let lines = command_lines(alloc, *command)?;
        text.push_str(lines.as_str())?;
    }
    Ok(text)
}

// A line for each of these options.
fn options_text(alloc: Global, options: &[OptionLine]) -> Result<String, AllocError>
    ensures { IfOk result (λ text. string_bytes text ≡ flat_map spec.option_line options.now) }
{
    let mut text = String::new(alloc);
    for option in options {
        let line = indented(alloc, option_words(*option))?;
        text.push_str(line.as_str())?;
    }
    Ok(text)
}

// How the program is called.
#[tactic(auto, unfolding(crate::specs::HelpTexts::program_help))]
fn program_text(alloc: Global) -> Result<String, AllocError>
    ensures { IfOk result (λ text. string_bytes text ≡ spec.program_help) }
{
    let mut text = String::from_str(alloc, "usage:\n")?;
    let commands = commands_text(alloc, COMMANDS)?;
    text.push_str(commands.as_str())?;
    text.push_str("  hotsync help [COMMAND]\n")?;
    text.push_str("  hotsync --version\n")?;
    Ok(text)
}

// The examples of a command, behind a line of their own.
#[tactic(auto, unfolding(crate::specs::HelpTexts::examples_text))]
fn examples_text(alloc: Global, command: CommandWord) -> Result<String, AllocError>
    ensures { IfOk result (λ text. string_bytes text ≡ spec.examples_text command) }
{
    let first = indented(alloc, first_example(command))?;
    let second = indented(alloc, second_example(command))?;
    let mut text = String::from_str(alloc, "examples:\n")?;
    text.push_str(first.as_str())?;
    text.push_str(second.as_str())?;
    Ok(text)
}

// How a command is called, what it does, its options, and examples.
#[tactic(auto, unfolding(crate::specs::HelpTexts::command_help))]
fn command_text(alloc: Global, command: CommandWord) -> Result<String, AllocError>
    ensures { IfOk result (λ text. string_bytes text ≡ spec.command_help command) }
{
    let mut text = String::from_str(alloc, "usage: ")?;
    text.push_str(synopsis(command))?;
    text.push_str("\n")?;
    text.push_str(summary(command))?;
    text.push_str("\n")?;
    let options = options_text(alloc, options(command))?;
    text.push_str(options.as_str())?;
    let examples = examples_text(alloc, command)?;
    text.push_str(examples.as_str())?;
    Ok(text)
}

/// The text of a topic.
pub fn help_text(alloc: Global, topic: Topic) -> Result<String, AllocError>
    ensures { IfOk result (λ text. string_bytes text ≡ spec.help_text topic) }
{
    match topic {
        Topic::Program => program_text(alloc),
        Topic::Version => String::from_str(alloc, VERSION),
        Topic::Of(command) => command_text(alloc, command),
    }
}
