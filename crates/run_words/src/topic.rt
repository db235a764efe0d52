// Words that ask for help, and of what.
ghost use Rattle.std.specs.Prelude.{◌≡◌, map, option_map, string_bytes};
ghost use Rattle.run_words.specs.Helps.{alone as is_alone, command_named as named_by_first, command_word as word_of_command, flagged_help, help_behind as help_of_rest, help_by as help_by_first, help_of as help_of_words};
ghost use Rattle.run_words.specs.declared.topic.Topic.TheVariants.{Of};

use crate::form::has_flag;

/// A command of the program.
#[derive(Clone, Copy, PartialEq, Eq)]
pub enum CommandWord {
    /// `run`.
    Run,
    /// `check`.
    Check,
    /// `show`.
    Show,
    /// `export`.
    Export,
    /// `import`.
    Import,
    /// `verify`.
    Verify,
    /// `picture`.
    Picture,
    /// `packet`.
    Packet,
    /// `install`.
    Install,
    /// `backup`.
    Backup,
    /// `restore`.
    Restore,
    /// `device`.
    Device,
    /// `categories`.
    Categories,
    /// `sync`.
    Sync,
    /// `make`.
    Make,
}

/// What help is asked for.
#[derive(Clone, Copy, PartialEq, Eq)]
pub enum Topic {
    /// The program: `--help`, `-h` or `help`.
    Program,
    /// Its version: `--version` or `-V`.
    Version,
    /// One command: `help COMMAND`, or `--help` behind it.
    Of(CommandWord),
}

/// The command that a word names.
pub fn command_word(word: &str) -> Option<CommandWord>
    ensures { result ≡ word_of_command word.now }
{
    match word {
        "run" => Some(CommandWord::Run),
        "check" => Some(CommandWord::Check),
        "show" => Some(CommandWord::Show),
        "export" => Some(CommandWord::Export),
        "import" => Some(CommandWord::Import),
        "verify" => Some(CommandWord::Verify),
        "picture" => Some(CommandWord::Picture),
        "packet" => Some(CommandWord::Packet),
        "install" => Some(CommandWord::Install),
        "backup" => Some(CommandWord::Backup),
        "restore" => Some(CommandWord::Restore),
        "device" => Some(CommandWord::Device),
        "categories" => Some(CommandWord::Categories),
        "sync" => Some(CommandWord::Sync),
        "make" => Some(CommandWord::Make),
        _ => None,
    }
}

/// The command that the first of some words names.
pub fn command_named(words: &[String]) -> Option<CommandWord>
    ensures { result ≡ named_by_first (map string_bytes words.now) }
{
    command_word(words.first()?.as_str())
}

// The help of the command that a word names.
fn help_with(word: &str) -> Option<Topic>
    ensures { result ≡ option_map Of (word_of_command word.now) }
{
    match command_word(word) {
        Some(command) => Some(Topic::Of(command)),
        None => None,
    }
}

// The help that a first word asks for where no word stands behind it.
fn alone(topic: Topic, words: &[String]) -> Option<Topic>
    ensures { result ≡ is_alone topic (map string_bytes words.now) }
{
    match words {
        [] => Some(topic),
        [_, ..] => None,
    }
}

// The help that the words behind `help` ask for.
fn help_behind(words: &[String]) -> Option<Topic>
    ensures { result ≡ help_of_rest (map string_bytes words.now) }
{
    match words {
        [] => Some(Topic::Program),
        [word] if word.as_str() == "--help" || word.as_str() == "help" => Some(Topic::Program),
        [word] => help_with(word.as_str()),
        [_, _, ..] => None,
    }
}

// The help of the command that a word names, where `--help` stands among the words behind it.
fn help_flagged(command: &str, words: &[String]) -> Option<Topic>
    ensures { result ≡ flagged_help command.now (map string_bytes words.now) }
{
    if has_flag(words, "help") {
        help_with(command)
    } else {
        None
    }
}

// The help that a first word and those behind it ask for.
fn help_by(first: &str, words: &[String]) -> Option<Topic>
    ensures { result ≡ help_by_first first.now (map string_bytes words.now) }
{
    match first {
        "--version" | "-V" => alone(Topic::Version, words),
        "--help" | "-h" => alone(Topic::Program, words),
        "help" => help_behind(words),
        _ => help_flagged(first, words),
    }
}

/// The help that words ask for, or `None` exactly where they ask for none.
#[tactic(auto, unfolding(crate::specs::Helps::help_of))]
pub fn help_of(words: &[String]) -> Option<Topic>
    ensures { result ≡ help_of_words (map string_bytes words.now) }
{
    let [first, words @ ..] = words else {
        return None;
    };
    help_by(first.as_str(), words)
}
