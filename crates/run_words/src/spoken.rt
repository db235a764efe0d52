// Words of a form as they stand.
ghost use Rattle.std.specs.Prelude.{◌≡◌, drop, map, option_map, string_bytes};
ghost use Rattle.run_words.specs.Faults.{right_given};
ghost use Rattle.run_words.specs.Helps.{begins as begins_with, names_port as names_port_behind};
ghost use Rattle.run_words.specs.Views.{form_view, spoken_given};

use crate::fault::{FaultKind, option_fault};
use crate::form::{WordForm, is_of_form, option_named, plain_at, said_of, value_of};
use crate::reading::Reading;

/// Words of a form as they stand.
#[derive(Clone, Copy)]
pub struct Spoken<'a> {
    /// The form.
    pub form: WordForm<'static>,
    /// The words.
    pub words: &'a [String],
}

impl<'a> Reading<'a> for Spoken<'a> {
    ghost given = { spoken_given };

    fn plain(&self, place: usize) -> Option<&'a str> {
        plain_at(self.words, place)
    }

    fn said(&self, name: &str) -> Option<&'a str> {
        let option = option_named(&self.form, name)?;
        said_of(self.words, &option)
    }
}

/// The words behind the first.
pub(crate) fn behind_first(words: &[String]) -> &[String]
    ensures { map string_bytes result.now ≡ drop 1 (map string_bytes words.entry.now) }
{
    words.get(1..).unwrap_or(&[])
}

/// The words behind the first, where they are of this form and each value means something, at the date now.
#[tactic(auto, unfolding(crate::specs::Faults::right_given))]
pub(crate) fn right_words<'a>(
    now: Option<u32>,
    form: WordForm<'static>,
    words: &'a [String],
) -> Option<Spoken<'a>>
    ensures { option_map spoken_given result
        ≡ right_given now (form_view form.entry) (map string_bytes words.entry.now) }
{
    let words = behind_first(words);
    if !is_of_form(&form, words) {
        return None;
    }
    match option_fault(FaultKind::BadOption, now, &form, words) {
        Some(_) => None,
        None => Some(Spoken { form, words }),
    }
}

/// Whether this is the first word.
pub(crate) fn begins(words: &[String], word: &str) -> bool
    ensures { result ≡ begins_with word.now (map string_bytes words.now) }
{
    match words.first() {
        Some(first) => first.as_str() == word,
        None => false,
    }
}

/// Whether this is the first word, and one behind it names a port.
pub fn names_port(words: &[String], word: &str) -> bool
    ensures { result ≡ names_port_behind word.now (map string_bytes words.now) }
{
    begins(words, word) && value_of(behind_first(words), "port").is_some()
}
