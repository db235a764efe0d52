// The word at fault, where words ask for nothing.
ghost use Rattle.std.specs.Prelude.{◌≡◌, map, option_copied, option_map, string_bytes};
ghost use Rattle.std.specs.List.{find};
ghost use Rattle.run_words.specs.Faults as spec;
ghost use Rattle.run_words.specs.Views.{fault_view, form_view, option_view};

use crate::action_list::is_actions;
use crate::form::{
    FormOption, WordForm, is_needed, is_word, name_of, option_named, plain_at, plain_count,
    said_of, use_count,
};
use crate::hexadecimal::is_hex;
use crate::look::is_form_word;
use crate::number::{count_in, number_in};
use crate::only::are_stems;
use crate::run::date_in;
use crate::tables::form_of;
use crate::topic::{CommandWord, command_word};
use crate::user::user_in;
use crate::word::{behind, is_plain};

/// What is wrong with a word.
#[derive(Clone, Copy, PartialEq, Eq)]
pub enum FaultKind {
    /// It names no command.
    UnknownCommand,
    /// It is no option of its command.
    UnknownOption,
    /// It is an option without the value that it wants.
    NoValue,
    /// It is a flag with a value.
    ExtraValue,
    /// The option or the flag of this name stands more than once.
    Twice,
    /// It is one word too many.
    Extra,
    /// The option of this name doesn't stand.
    Missing,
    /// The words behind this command are too few.
    TooFew,
    /// The value of the option of this name means nothing.
    BadOption,
    /// It means nothing in its place.
    BadWord,
}

/// The word at fault.
#[derive(Clone, Copy)]
pub struct WordFault<'a> {
    /// What is wrong with it.
    pub kind: FaultKind,
    /// The word, or the name of an option or a flag.
    pub word: &'a str,
}

// ---- words that are none of the form

// The name that a word gives to an option or a flag, with a value or without.
fn name_in(word: &str) -> &str
    ensures { result.now ≡ spec.name_in word.entry.now }
{
    let Some(rest) = behind(word, "--") else {
        return "";
    };
    match rest.split_once('=') {
        Some((name, _)) => name,
        None => rest,
    }
}

// What is wrong with a word that is none of the form.
fn kind_of(form: &WordForm<'_>, word: &str) -> FaultKind
    ensures { result ≡ spec.strange_kind (form_view form.now) word.now }
{
    match option_named(form, name_in(word)) {
        Some(option) => misspelt(&option),
        None => FaultKind::UnknownOption,
    }
}

// What is wrong with an option that stands so.
fn misspelt(option: &FormOption<'_>) -> FaultKind
    ensures { result ≡ spec.misspelt (option_view option.now).kind }
{
    match option {
        FormOption::Flag(_) => FaultKind::ExtraValue,
        _ => FaultKind::NoValue,
    }
}

// Whether a word is none of the form, and not empty.
fn is_strange(form: &WordForm<'_>, word: &str) -> bool
    ensures { result ≡ spec.is_strange (form_view form.now) word.now }
{
    !is_word(form, word) && !word.is_empty()
}

// The first word that is none of the form, and not empty.
fn strange_in<'a>(form: &WordForm<'_>, words: &'a [String]) -> Option<&'a String>
    ensures { option_map string_bytes (option_copied result)
        ≡ find (spec.is_strange (form_view form.now)) (map string_bytes words.entry.now) }
{
    words.iter().find(|word| is_strange(form, word.as_str()))
}

// What is wrong with that word.
fn strange_word<'a>(form: &WordForm<'_>, words: &'a [String]) -> Option<WordFault<'a>>
    ensures { option_map fault_view result
        ≡ spec.strange_word (form_view form.now) (map string_bytes words.entry.now) }
{
    let word = strange_in(form, words)?.as_str();
    Some(WordFault {
        kind: kind_of(form, word),
        word,
    })
}

// ---- options

// Whether the value of an option means nothing.
fn is_bad_value(now: Option<u32>, name: &str, value: &str) -> bool
    ensures { result ≡ spec.is_bad_value now name.now value.now }
{
    match name {
        "date" => date_in(now, value).is_none(),
        "actions" => !is_actions(value),
        "only" => !are_stems(value),
        "as" => !is_form_word(value),
        "user" => user_in(value).is_none(),
        _ => false,
    }
}

// Whether an option has this fault: it stands more than once, or it has to stand and doesn't, or its value means nothing.
fn is_faulty(kind: FaultKind, now: Option<u32>, words: &[String], option: &FormOption<'_>) -> bool
    ensures { result ≡ spec.is_faulty kind now (map string_bytes words.now)
        (option_view option.now) }
{
    match kind {
        FaultKind::Twice => use_count(words, option) > 1,
        FaultKind::Missing => is_needed(option) && use_count(words, option) == 0,
        FaultKind::BadOption => match said_of(words, option) {
            Some(value) => is_bad_value(now, name_of(option), value),
            None => false,
        },
        _ => false,
    }
}

// The first option of the form with this fault.
fn faulty_option<'a>(
    kind: FaultKind,
    now: Option<u32>,
    form: &WordForm<'a>,
    words: &[String],
) -> Option<&'a FormOption<'a>>
    ensures { option_map option_view (option_copied result)
        ≡ find (spec.is_faulty kind now (map string_bytes words.now)) (form_view form.now).options }
{
    form.options
        .iter()
        .find(|option| is_faulty(kind, now, words, option))
}

/// The first option of the form with this fault.
pub(crate) fn option_fault<'a>(
    kind: FaultKind,
    now: Option<u32>,
    form: &WordForm<'a>,
    words: &[String],
) -> Option<WordFault<'a>>
    ensures { option_map fault_view result
        ≡ spec.option_fault kind now (form_view form.now) (map string_bytes words.now) }
{
    let option = faulty_option(kind, now, form, words)?;
    Some(WordFault {
        kind,
        word: name_of(option),
    })
}

// ---- plain words

// The first plain word behind those of the form.
fn extra_word<'a>(form: &WordForm<'_>, words: &'a [String]) -> Option<WordFault<'a>>
    ensures { option_map fault_view result
        ≡ spec.extra_word (form_view form.now) (map string_bytes words.entry.now) }
{
    let word = plain_at(words, form.plain.len())?;
    Some(WordFault {
        kind: FaultKind::Extra,
        word,
    })
}

// The command, where fewer plain words stand behind it than its form has.
fn few_words<'a>(form: &WordForm<'_>, command: &'a str, words: &[String]) -> Option<WordFault<'a>>
    ensures { option_map fault_view result
        ≡ spec.few_words (form_view form.now) command.entry.now (map string_bytes words.now) }
{
    if plain_count(words) >= form.plain.len() {
        return None;
    }
    Some(WordFault {
        kind: FaultKind::TooFew,
        word: command,
    })
}

// Whether the plain word at a place behind a command means nothing.
fn is_bad_word(command: CommandWord, place: usize, word: &str) -> bool
    ensures { result ≡ spec.is_bad_word command place word.now }
{
    match command {
        CommandWord::Packet => !is_hex(word.as_bytes()),
        CommandWord::Make if place == 0 => number_in(word).is_none(),
        CommandWord::Make => count_in(word).is_none(),
        _ => false,
    }
}

// The plain word at a place, where it means nothing.
fn bad_word_at<'a>(command: CommandWord, place: usize, words: &'a [String]) -> Option<WordFault<'a>>
    ensures { option_map fault_view result
        ≡ spec.bad_word_at command place (map string_bytes words.entry.now) }
{
    let word = plain_at(words, place)?;
    if !is_bad_word(command, place, word) {
        return None;
    }
    Some(WordFault {
        kind: FaultKind::BadWord,
        word,
    })
}

// The first of two plain words that means nothing.
fn bad_word<'a>(command: CommandWord, words: &'a [String]) -> Option<WordFault<'a>>
    ensures { option_map fault_view result
        ≡ spec.bad_word command (map string_bytes words.entry.now) }
{
    match bad_word_at(command, 0, words) {
        Some(fault) => Some(fault),
        None => bad_word_at(command, 1, words),
    }
}

// ---- the first fault

// How words are not of the form of their command.
fn form_fault<'a>(
    form: &WordForm<'a>,
    command: &'a str,
    words: &'a [String],
) -> Option<WordFault<'a>>
    ensures { option_map fault_view result ≡ spec.form_fault (form_view form.now)
        command.entry.now (map string_bytes words.entry.now) }
{
    if let Some(fault) = strange_word(form, words) {
        return Some(fault);
    }
    if let Some(fault) = option_fault(FaultKind::Twice, None, form, words) {
        return Some(fault);
    }
    if let Some(fault) = extra_word(form, words) {
        return Some(fault);
    }
    match option_fault(FaultKind::Missing, None, form, words) {
        Some(fault) => Some(fault),
        None => few_words(form, command, words),
    }
}

// The word at fault behind a command.
fn command_fault<'a>(
    now: Option<u32>,
    known: CommandWord,
    command: &'a str,
    words: &'a [String],
) -> Option<WordFault<'a>>
    ensures { option_map fault_view result ≡ spec.command_fault now known command.entry.now
        (map string_bytes words.entry.now) }
{
    let form = form_of(known, words);
    if let Some(fault) = form_fault(&form, command, words) {
        return Some(fault);
    }
    match option_fault(FaultKind::BadOption, now, &form, words) {
        Some(fault) => Some(fault),
        None => bad_word(known, words),
    }
}

// The first word where none is to stand.
fn word_too_many<'a>(words: &'a [String]) -> Option<WordFault<'a>>
    ensures { option_map fault_view result
        ≡ spec.word_too_many (map string_bytes words.entry.now) }
{
    let word = words.first()?.as_str();
    Some(WordFault {
        kind: FaultKind::Extra,
        word,
    })
}

// A word that names no command.
fn unknown_word<'a>(word: &'a str) -> Option<WordFault<'a>>
    ensures { option_map fault_view result ≡ spec.unknown_word word.entry.now }
{
    if word.is_empty() {
        return None;
    }
    let kind = if is_plain(word.as_bytes()) {
        FaultKind::UnknownCommand
    } else {
        FaultKind::UnknownOption
    };
    Some(WordFault { kind, word })
}

// The word at fault behind `help`.
fn help_fault<'a>(words: &'a [String]) -> Option<WordFault<'a>>
    ensures { option_map fault_view result ≡ spec.help_fault (map string_bytes words.entry.now) }
{
    let [word, words @ ..] = words else {
        return None;
    };
    let asked = word.as_str();
    if command_word(asked).is_some() || asked == "--help" || asked == "help" {
        word_too_many(words)
    } else {
        unknown_word(asked)
    }
}

// The word at fault behind a first word that names no command.
fn first_fault<'a>(word: &'a str, words: &'a [String]) -> Option<WordFault<'a>>
    ensures { option_map fault_view result
        ≡ spec.first_fault word.entry.now (map string_bytes words.entry.now) }
{
    match word {
        "help" => help_fault(words),
        "--help" | "-h" => word_too_many(words),
        "--version" | "-V" => word_too_many(words),
        _ => unknown_word(word),
    }
}

/// The word at fault in words that ask for nothing, where it can be named. `now` is the date now in seconds, if it can be told.
#[tactic(auto, unfolding(crate::specs::Faults::fault_of))]
pub fn fault_of<'a>(now: Option<u32>, words: &'a [String]) -> Option<WordFault<'a>>
    ensures { option_map fault_view result ≡ spec.fault_of now (map string_bytes words.entry.now) }
{
    let [first, words @ ..] = words else {
        return None;
    };
    match command_word(first.as_str()) {
        Some(known) => command_fault(now, known, first.as_str(), words),
        None => first_fault(first.as_str(), words),
    }
}
