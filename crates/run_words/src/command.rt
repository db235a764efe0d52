// Commands.
ghost use Rattle.std.specs.Prelude.{◌≡◌, map, string_bytes, option_map};
ghost use Rattle.run_words.specs.Commands.{Help, Make, deed_of as deed_of_words, lone_import_in as lone_import_of, look_in as look_of_words, make_in as make_of_words, meaning, packet_in as packet_of_words, show_look, sync_in as sync_of_words, task_of};
ghost use Rattle.run_words.specs.Exports.{export_in as export_of_words, export_with};
ghost use Rattle.run_words.specs.Helps.{help_of as help_of_words};
ghost use Rattle.run_words.specs.Views.{task_view};
ghost use Rattle.run_words.specs.Words.{bytes_of};

use crate::between::{BetweenWords, between_in};
use crate::capture::{CaptureWords, capture_in};
use crate::hexadecimal::is_hex;
use crate::like::import_in;
use crate::look::{Export, ExportForm, ImportForm, Look, LookWords, export_form_in};
use crate::number::{count_in, number_in};
use crate::reading::Reading;
use crate::run::{RunWords, run_in};
use crate::spoken::right_words;
use crate::tables::form_behind;
use crate::topic::{CommandWord, Topic, command_named, help_of};

/// A search for packets.
#[derive(Clone, Copy)]
pub struct PacketWords<'a> {
    /// The hexadecimal of 1 to 4,096 bytes.
    pub hex: &'a str,
}

/// A run over folders that are made in memory.
#[derive(Clone, Copy)]
pub struct MakeWords {
    /// The seed of the generator.
    pub seed: u64,
    /// From 1 to 5,000.
    pub count: u32,
}

/// What words ask for.
#[derive(Drop)]
pub enum Command<'a> {
    /// `run`.
    Run(RunWords<'a>),
    /// `run` with `--dry-run`.
    DryRun(RunWords<'a>),
    /// `check`, `show`, `export`, `import`, `verify` or `picture`.
    Look(LookWords<'a>),
    /// `packet`.
    Packet(PacketWords<'a>),
    /// `make`.
    Make(MakeWords),
    /// `install`.
    Install(BetweenWords<'a>),
    /// `backup`.
    Backup(BetweenWords<'a>),
    /// `restore`.
    Restore(BetweenWords<'a>),
    /// `device`.
    Device(CaptureWords<'a>),
    /// `categories`.
    Categories(BetweenWords<'a>),
    /// Help, or the version.
    Help(Topic),
}

/// What these words ask for, or `None` exactly where they are not in the form. `now` is the date now in seconds, if it can be
/// told.
#[tactic(auto, unfolding(crate::specs::Commands::task_of))]
pub fn command_of<'a>(now: Option<u32>, words: &'a [String]) -> Option<Command<'a>>
    ensures { option_map task_view result ≡ task_of now (map string_bytes words.entry.now) }
{
    match deed_of(now, words) {
        Some(command) => Some(command),
        None => help_command(words),
    }
}

// The help that words ask for.
fn help_command<'a>(words: &'a [String]) -> Option<Command<'a>>
    ensures { option_map task_view result
        ≡ option_map Help (help_of_words (map string_bytes words.entry.now)) }
{
    match help_of(words) {
        Some(topic) => Some(Command::Help(topic)),
        None => None,
    }
}

/// What words ask for beside help, by the first of them.
#[tactic(auto, unfolding(crate::specs::Commands::deed_of))]
pub fn deed_of<'a>(now: Option<u32>, words: &'a [String]) -> Option<Command<'a>>
    ensures { option_map task_view result ≡ deed_of_words now (map string_bytes words.entry.now) }
{
    let command = command_named(words)?;
    let spoken = right_words(now, form_behind(command), words)?;
    command_in(now, command, &spoken)
}

/// What words of its form ask for behind a command.
pub fn command_in<'a, R: Reading<'a>>(
    now: Option<u32>,
    command: CommandWord,
    words: &R,
) -> Option<Command<'a>>
    ensures { option_map task_view result ≡ meaning now command (R.given words.now) }
{
    match command {
        CommandWord::Run => run_command(now, words),
        CommandWord::Check => look_in(Look::Check, words),
        CommandWord::Show => look_in(show_in(words), words),
        CommandWord::Export => look_in(Look::Export(export_in(now, words)?), words),
        CommandWord::Import => look_in(Look::Import(lone_import_in(words)?), words),
        CommandWord::Verify => look_in(Look::Verify, words),
        CommandWord::Picture => look_in(Look::Picture, words),
        CommandWord::Packet => Some(Command::Packet(packet_in(words)?)),
        CommandWord::Install => Some(Command::Install(between_in(words)?)),
        CommandWord::Backup => Some(Command::Backup(between_in(words)?)),
        CommandWord::Restore => Some(Command::Restore(between_in(words)?)),
        CommandWord::Device => Some(Command::Device(capture_in(words)?)),
        CommandWord::Categories => Some(Command::Categories(between_in(words)?)),
        CommandWord::Sync => None,
        CommandWord::Make => Some(Command::Make(make_in(words)?)),
    }
}

// The run that the words ask for, a dry one where they say so.
fn run_command<'a, R: Reading<'a>>(now: Option<u32>, words: &R) -> Option<Command<'a>>
    ensures { option_map task_view result ≡ sync_of_words now (R.given words.now) }
{
    match run_in(now, words) {
        Some(run) if words.said("dry-run").is_some() => Some(Command::DryRun(run)),
        Some(run) => Some(Command::Run(run)),
        None => None,
    }
}

// The look at the file that the words give.
fn look_in<'a, R: Reading<'a>>(look: Look, words: &R) -> Option<Command<'a>>
    ensures { option_map task_view result ≡ look_of_words look (R.given words.now) }
{
    let file = words.plain(0)?;
    Some(Command::Look(LookWords { look, file }))
}

// What is shown of a file, as the words say.
fn show_in<'a, R: Reading<'a>>(words: &R) -> Look
    ensures { result ≡ show_look (R.given words.now) }
{
    if words.said("records").is_some() {
        Look::Records
    } else {
        Look::Show
    }
}

// How the words want a database exported.
fn export_in<'a, R: Reading<'a>>(now: Option<u32>, words: &R) -> Option<Export>
    ensures { result ≡ export_of_words now (R.given words.now) }
{
    let form = export_form_in(now, words.said("as")?, words.said("date"))?;
    Some(export_with(words, form))
}

// How they want it exported in this form.
fn export_with<'a, R: Reading<'a>>(words: &R, form: ExportForm) -> Export
    ensures { result ≡ export_with (R.given words.now) form }
{
    Export {
        form,
        without_private: words.said("without-private").is_some(),
        keep_broken: words.said("keep-broken").is_some(),
        raw: words.said("raw").is_some(),
    }
}

// The form of the text of which the words want a database, where they name no other file.
fn lone_import_in<'a, R: Reading<'a>>(words: &R) -> Option<ImportForm>
    ensures { result ≡ lone_import_of (R.given words.now) }
{
    if words.said("like").is_some() {
        return None;
    }
    import_in(words)
}

// The hexadecimal that the words give.
fn packet_in<'a, R: Reading<'a>>(words: &R) -> Option<PacketWords<'a>>
    ensures { option_map (λ packet. bytes_of packet.hex.now) result
        ≡ packet_of_words (R.given words.now) }
{
    let hex = words.plain(0)?;
    if !is_hex(hex.as_bytes()) {
        return None;
    }
    Some(PacketWords { hex })
}

// The seed and the count that the words give.
fn make_in<'a, R: Reading<'a>>(words: &R) -> Option<MakeWords>
    ensures { option_map (λ make. Make make.seed make.count) result
        ≡ make_of_words (R.given words.now) }
{
    let seed = number_in(words.plain(0)?)?;
    let count = count_in(words.plain(1)?)?;
    Some(MakeWords { seed, count })
}
