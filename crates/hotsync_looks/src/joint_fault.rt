// The word at fault, also where each word is right by itself and some don't stand together.
ghost use Rattle.std.specs.Prelude.{◌≡◌, ◌==◌, length, map, option_copied, option_map, string_bytes};
ghost use Rattle.hotsync_looks.specs.JointFaults as spec;
ghost use Rattle.run_words.specs.Views.{fault_view};

use run_words::{
    CommandWord, FaultKind, Reading, Spoken, WordFault, command_word, fault_of, form_behind,
};

// What the words behind a command say of the option of this name.
fn said_behind<'a>(command: CommandWord, name: &str, words: &'a [String]) -> Option<&'a str>
    ensures { option_copied result
        ≡ spec.said_behind command name.now (map string_bytes words.entry.now) }
{
    let spoken = Spoken {
        form: form_behind(command),
        words,
    };
    spoken.said(name)
}

// Whether they name this form.
fn names_form(command: CommandWord, form: &str, words: &[String]) -> bool
    ensures { result ≡ spec.names_form command form.now (map string_bytes words.now) }
{
    match said_behind(command, "as", words) {
        Some(said) => said == form,
        None => false,
    }
}

// A calendar has a date, and no other form has one.
fn export_fault<'a>(words: &'a [String]) -> Option<WordFault<'a>>
    ensures { option_map fault_view result ≡ spec.export_fault (map string_bytes words.entry.now) }
{
    let is_calendar = names_form(CommandWord::Export, "ics", words);
    match said_behind(CommandWord::Export, "date", words) {
        None if is_calendar => Some(WordFault {
            kind: FaultKind::Missing,
            word: "date",
        }),
        Some(_) if !is_calendar => Some(WordFault {
            kind: FaultKind::Extra,
            word: "--date",
        }),
        _ => None,
    }
}

// A text of another form than that of memos is not read.
fn import_fault<'a>(words: &'a [String]) -> Option<WordFault<'a>>
    ensures { option_map fault_view result ≡ spec.import_fault (map string_bytes words.entry.now) }
{
    if names_form(CommandWord::Import, "txt", words) {
        return None;
    }
    Some(WordFault {
        kind: FaultKind::BadOption,
        word: "as",
    })
}

// Whether one of the words is empty.
fn has_empty(words: &[String]) -> bool
    ensures { result ≡ spec.has_empty (map string_bytes words.now) }
{
    words.iter().any(|word| word.is_empty())
}

/// An empty word.
pub(crate) fn empty_fault<'a>(words: &'a [String]) -> Option<WordFault<'a>>
    ensures { option_map fault_view result ≡ spec.empty_fault (map string_bytes words.entry.now) }
{
    if !has_empty(words) {
        return None;
    }
    Some(WordFault {
        kind: FaultKind::BadWord,
        word: "",
    })
}

// What is wrong with the words behind a command, none of which is at fault by itself.
fn joint_fault<'a>(command: Option<CommandWord>, words: &'a [String]) -> Option<WordFault<'a>>
    ensures { option_map fault_view result
        ≡ spec.joint_fault command (map string_bytes words.entry.now) }
{
    let command = command?;
    if let Some(fault) = empty_fault(words) {
        return Some(fault);
    }
    match command {
        CommandWord::Export => export_fault(words),
        CommandWord::Import => import_fault(words),
        _ => None,
    }
}

/// The word at fault in words that ask for nothing, where it can be named. `now` is the date now in seconds, if it can be told.
pub fn word_at_fault<'a>(now: Option<u32>, words: &'a [String]) -> Option<WordFault<'a>>
    ensures { option_map fault_view result
        ≡ spec.word_at_fault now (map string_bytes words.entry.now) }
{
    let [first, behind @ ..] = words else {
        return None;
    };
    match fault_of(now, words) {
        Some(fault) => Some(fault),
        None => joint_fault(command_word(first.as_str()), behind),
    }
}
