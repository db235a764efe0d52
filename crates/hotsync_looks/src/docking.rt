// The word at fault in words that name a port behind `device`.
ghost use Rattle.std.specs.Prelude.{◌≡◌, None, map, option_copied, option_map, string_bytes};
ghost use Rattle.std.specs.List.{find};
ghost use Rattle.hotsync_looks.specs.DockingFaults as spec;
ghost use Rattle.run_words.specs.Faults as faults;
ghost use Rattle.run_words.specs.Tables.{dock_form};
ghost use Rattle.run_words.specs.Views.{fault_view};
ghost use Rattle.run_words.specs.Words.{after, is_plain as is_plain_word};

use crate::joint_fault::empty_fault;
use run_words::{DOCK, FaultKind, Reading, Spoken, WordFault, option_named};

// The options that take a value, as their words begin.
const PORT: &str = "--port=";

const TRACE: &str = "--trace=";

// What follows a first part of a word.
fn behind<'a>(word: &'a str, part: &str) -> Option<&'a str>
    ensures { option_copied result ≡ after part.now word.now }
{
    word.strip_prefix(part)
}

// A plain word is not empty and does not begin with `-`.
fn is_plain(word: &[u8]) -> bool
    ensures { result ≡ is_plain_word word.now }
{
    match word.first() {
        Some(first) => *first != b'-',
        None => false,
    }
}

// Whether something follows a first part of a word.
fn is_set(word: &str, part: &str) -> bool
    ensures { result ≡ spec.is_set part.now word.now }
{
    match behind(word, part) {
        Some(value) => !value.is_empty(),
        None => false,
    }
}

// Whether a word is none of the form, and not empty.
fn is_strange(word: &str) -> bool
    ensures { result ≡ faults.is_strange dock_form word.now }
{
    !is_plain(word.as_bytes()) && !is_set(word, PORT) && !is_set(word, TRACE) && !word.is_empty()
}

// The first word that is none of the form, and not empty.
fn strange_in<'a>(words: &'a [String]) -> Option<&'a String>
    ensures { option_map string_bytes (option_copied result)
        ≡ find (faults.is_strange dock_form) (map string_bytes words.entry.now) }
{
    words.iter().find(|word| is_strange(word.as_str()))
}

// The name that a word gives to an option or a flag, with a value or without.
fn name_in(word: &str) -> &str
    ensures { result.now ≡ faults.name_in word.entry.now }
{
    let Some(rest) = behind(word, "--") else {
        return "";
    };
    match rest.split_once('=') {
        Some((name, _)) => name,
        None => rest,
    }
}

// What is wrong with a word that is none of the form: both of its options take a value.
fn kind_of(word: &str) -> FaultKind
    ensures { result ≡ faults.strange_kind dock_form word.now }
{
    match option_named(&DOCK, name_in(word)) {
        Some(_) => FaultKind::NoValue,
        None => FaultKind::UnknownOption,
    }
}

fn strange_word<'a>(words: &'a [String]) -> Option<WordFault<'a>>
    ensures { option_map fault_view result
        ≡ faults.strange_word dock_form (map string_bytes words.entry.now) }
{
    let word = strange_in(words)?.as_str();
    Some(WordFault {
        kind: kind_of(word),
        word,
    })
}

// How many words begin so.
fn begin_count(words: &[String], part: &str) -> usize
    ensures { result ≡ spec.begin_count part.now (map string_bytes words.now) }
{
    words
        .iter()
        .filter(|word| behind(word.as_str(), part).is_some())
        .count()
}

// The first option that stands more than once.
fn twice<'a>(words: &'a [String]) -> Option<WordFault<'a>>
    ensures { option_map fault_view result
        ≡ faults.option_fault FaultKind.Twice None dock_form (map string_bytes words.entry.now) }
{
    if begin_count(words, PORT) > 1 {
        return Some(option_fault(FaultKind::Twice, "port"));
    }
    if begin_count(words, TRACE) > 1 {
        return Some(option_fault(FaultKind::Twice, "trace"));
    }
    None
}

// The port that doesn't stand.
fn missing<'a>(words: &'a [String]) -> Option<WordFault<'a>>
    ensures { option_map fault_view result
        ≡ faults.option_fault FaultKind.Missing None dock_form (map string_bytes words.entry.now) }
{
    if begin_count(words, PORT) == 0 {
        return Some(option_fault(FaultKind::Missing, "port"));
    }
    None
}

fn option_fault<'a>(kind: FaultKind, word: &'a str) -> WordFault<'a>
    ensures { fault_view result ≡ faults.fault_in kind word.entry.now }
{
    WordFault { kind, word }
}

// The second plain word.
fn extra_word<'a>(words: &'a [String]) -> Option<WordFault<'a>>
    ensures { option_map fault_view result
        ≡ faults.extra_word dock_form (map string_bytes words.entry.now) }
{
    let word = Spoken { form: DOCK, words }.plain(1)?;
    Some(option_fault(FaultKind::Extra, word))
}

// The command, where no plain word stands behind it.
fn few_words<'a>(command: &'a str, words: &[String]) -> Option<WordFault<'a>>
    ensures { option_map fault_view result
        ≡ faults.few_words dock_form command.entry.now (map string_bytes words.now) }
{
    match (Spoken { form: DOCK, words }).plain(0) {
        Some(_) => None,
        None => Some(option_fault(FaultKind::TooFew, command)),
    }
}

// How the words behind a command are not of the form of a handheld at a port.
fn form_fault<'a>(command: &'a str, words: &'a [String]) -> Option<WordFault<'a>>
    ensures { option_map fault_view result ≡ faults.form_fault dock_form
        command.entry.now (map string_bytes words.entry.now) }
{
    if let Some(fault) = strange_word(words) {
        return Some(fault);
    }
    if let Some(fault) = twice(words) {
        return Some(fault);
    }
    if let Some(fault) = extra_word(words) {
        return Some(fault);
    }
    match missing(words) {
        Some(fault) => Some(fault),
        None => few_words(command, words),
    }
}

/// The word at fault in words that name a port behind `device`, where they ask for nothing and it can be named.
pub fn docking_fault<'a>(words: &'a [String]) -> Option<WordFault<'a>>
    ensures { option_map fault_view result ≡ spec.docking_fault (map string_bytes words.entry.now) }
{
    let [first, behind @ ..] = words else {
        return None;
    };
    match form_fault(first.as_str(), behind) {
        Some(fault) => Some(fault),
        None => empty_fault(behind),
    }
}
