// The form of the words behind a command, as a table, and what words hold by it.
ghost use Rattle.std.specs.Prelude.{◌≡◌, length, map, option_copied, option_map, string_bytes};
ghost use Rattle.std.specs.List.{list_all, list_any};
ghost use Rattle.run_words.specs.Forms as spec;
ghost use Rattle.run_words.specs.Views.{form_view, option_view};

use crate::word::{is_flag, is_plain, value_in};

/// An option, by its name.
#[derive(Clone, Copy)]
pub enum FormOption<'a> {
    /// `--NAME=VALUE`, which has to stand.
    Needed(&'a str),
    /// `--NAME=VALUE`, which may stand.
    Allowed(&'a str),
    /// The flag `--NAME`, which may stand.
    Flag(&'a str),
}

/// The form of the words behind a command.
#[derive(Clone, Copy)]
pub struct WordForm<'a> {
    /// The names of its plain words, in their order.
    pub plain: &'a [&'a str],
    /// Its options.
    pub options: &'a [FormOption<'a>],
}

/// The name of an option.
pub fn name_of<'a>(option: &FormOption<'a>) -> &'a str
    ensures { result.now ≡ (option_view option.now).name }
{
    match *option {
        FormOption::Needed(name) => name,
        FormOption::Allowed(name) => name,
        FormOption::Flag(name) => name,
    }
}

// That a flag stands, or not.
fn flag_said<'a>(stands: bool) -> Option<&'a str>
    ensures { option_copied result ≡ spec.flag_said stands }
{
    if stands { Some("true") } else { None }
}

// What a word says of an option: its value, or that it stands.
fn said_in<'a>(word: &'a str, option: &FormOption<'_>) -> Option<&'a str>
    ensures { option_copied result ≡ spec.said_in (option_view option.now) word.entry.now }
{
    match *option {
        FormOption::Needed(name) => value_in(word, name),
        FormOption::Allowed(name) => value_in(word, name),
        FormOption::Flag(name) => flag_said(is_flag(word, name)),
    }
}

// Whether a word says something of an option, and no empty value.
fn is_use(word: &str, option: &FormOption<'_>) -> bool
    ensures { result ≡ spec.is_use word.now (option_view option.now) }
{
    match said_in(word, option) {
        Some(said) => !said.is_empty(),
        None => false,
    }
}

// Whether a word is one of these options.
fn is_one_of(options: &[FormOption<'_>], word: &str) -> bool
    ensures { result ≡ list_any (spec.is_use word.now) (map option_view options.now) }
{
    options.iter().any(|option| is_use(word, option))
}

// A plain word, or an option of the form.
pub(crate) fn is_word(form: &WordForm<'_>, word: &str) -> bool
    ensures { result ≡ spec.is_word (form_view form.now) word.now }
{
    is_plain(word.as_bytes()) || is_one_of(form.options, word)
}

// Whether each of the words is one of the form.
fn are_words(form: &WordForm<'_>, words: &[String]) -> bool
    ensures { result ≡ list_all (spec.is_word (form_view form.now))
        (map string_bytes words.now) }
{
    words.iter().all(|word| is_word(form, word.as_str()))
}

// How many of the words are plain.
pub(crate) fn plain_count(words: &[String]) -> usize
    ensures { result ≡ length (spec.plain_words (map string_bytes words.now)) }
{
    words
        .iter()
        .filter(|word| is_plain(word.as_bytes()))
        .count()
}

// How many of the words say something of an option.
pub(crate) fn use_count(words: &[String], option: &FormOption<'_>) -> usize
    ensures { result ≡ spec.use_count (option_view option.now) (map string_bytes words.now) }
{
    words
        .iter()
        .filter(|word| said_in(word.as_str(), option).is_some())
        .count()
}

// Whether an option has to stand.
pub(crate) fn is_needed(option: &FormOption<'_>) -> bool
    ensures { result ≡ spec.is_needed (option_view option.now).kind }
{
    match option {
        FormOption::Needed(_) => true,
        _ => false,
    }
}

// Whether the option stands at most once, and not never where it has to stand.
fn fits_option(option: &FormOption<'_>, words: &[String]) -> bool
    ensures { result ≡ spec.fits_option (map string_bytes words.now) (option_view option.now) }
{
    let count = use_count(words, option);
    count <= 1 && (!is_needed(option) || 1 <= count)
}

// Whether each of the options stands as it has to.
fn fit_options(options: &[FormOption<'_>], words: &[String]) -> bool
    ensures { result ≡ list_all (spec.fits_option (map string_bytes words.now))
        (map option_view options.now) }
{
    options.iter().all(|option| fits_option(option, words))
}

/// Whether words are of a form: each is a plain word or an option of the form, as many are plain as the form has, and each
/// option stands as it has to.
#[tactic(auto, unfolding(crate::specs::Forms::is_of_form))]
pub fn is_of_form(form: &WordForm<'_>, words: &[String]) -> bool
    ensures { result ≡ spec.is_of_form (form_view form.now) (map string_bytes words.now) }
{
    are_words(form, words)
        && plain_count(words) == form.plain.len()
        && fit_options(form.options, words)
}

// The option of a name, where it lies.
fn find_option<'a>(form: &WordForm<'a>, name: &str) -> Option<&'a FormOption<'a>>
    ensures { option_map option_view (option_copied result)
        ≡ spec.option_named (form_view form.now) name.now }
{
    form.options.iter().find(|option| name_of(option) == name)
}

/// The option of a name.
pub fn option_named<'a>(form: &WordForm<'a>, name: &str) -> Option<FormOption<'a>>
    ensures { option_map option_view result ≡ spec.option_named (form_view form.now) name.now }
{
    let option = find_option(form, name)?;
    Some(*option)
}

/// The plain word at a place among the plain words.
pub fn plain_at<'a>(words: &'a [String], place: usize) -> Option<&'a str>
    ensures { option_copied result ≡ spec.plain_at place (map string_bytes words.entry.now) }
{
    let mut left = place;
    for word in words {
        if is_plain(word.as_bytes()) {
            if left == 0 {
                return Some(word.as_str());
            }
            left -= 1;
        }
    }
    None
}

/// What follows `--NAME=` in the first word that begins so.
pub fn value_of<'a>(words: &'a [String], name: &str) -> Option<&'a str>
    ensures { option_copied result ≡ spec.value_of name.now (map string_bytes words.entry.now) }
{
    for word in words {
        if let Some(value) = value_in(word.as_str(), name) {
            return Some(value);
        }
    }
    None
}

/// Whether one of the words is `--NAME`.
pub fn has_flag(words: &[String], name: &str) -> bool
    ensures { result ≡ spec.has_flag name.now (map string_bytes words.now) }
{
    words.iter().any(|word| is_flag(word.as_str(), name))
}

/// What the first of the words says that says something of an option.
pub fn said_of<'a>(words: &'a [String], option: &FormOption<'_>) -> Option<&'a str>
    ensures { option_copied result
        ≡ spec.said_of (map string_bytes words.entry.now) (option_view option.now) }
{
    match *option {
        FormOption::Needed(name) => value_of(words, name),
        FormOption::Allowed(name) => value_of(words, name),
        FormOption::Flag(name) => flag_said(has_flag(words, name)),
    }
}
