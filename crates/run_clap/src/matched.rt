// Words of a form, as `clap` read them.
ghost use Rattle.std.specs.Prelude.{◌≡◌, IfErr, IfOk, drop, map, option_copied, string_bytes, true};
ghost use Rattle.clap.specs.Words.{found_of, kind_of};
ghost use Rattle.run_clap.specs.Propers.{is_proper};
ghost use Rattle.run_clap.specs.Reads.{given_in, if_yes as if_said_yes, matched_given};
ghost use Rattle.run_words.specs.Forms.{given_by, is_of_form};
ghost use Rattle.run_words.specs.Views.{form_view};

use crate::form::form_command;
use clap::error::ErrorKind;
use clap::{ArgMatches, Error};
use run_words::{FormOption, Reading, WordForm, name_of, option_named};
use std::alloc::Global;

/// Why words give no command.
#[derive(Clone, Copy, PartialEq, Eq)]
pub enum WordsFault {
    /// The words are not in the form.
    Usage,
    /// There is no memory to read them.
    NoMemory,
}

/// Words of a form, as `clap` read them.
#[derive(Drop)]
pub struct Matched<'a> {
    /// The form.
    pub form: WordForm<'static>,
    /// What `clap` found.
    pub matches: ArgMatches<'a>,
}

impl<'a> Reading<'a> for Matched<'a> {
    ghost given = { matched_given };

    fn plain(&self, place: usize) -> Option<&'a str> {
        self.matches.get_str(*self.form.plain.get(place)?)
    }

    fn said(&self, name: &str) -> Option<&'a str> {
        let option = option_named(&self.form, name)?;
        let said = self.matches.get_str(name_of(&option));
        match option {
            FormOption::Flag(_) => if_yes(said),
            _ => said,
        }
    }
}

// The text that `clap` keeps of a flag, where it says that the flag stands.
fn if_yes<'a>(text: Option<&'a str>) -> Option<&'a str>
    ensures { option_copied result ≡ if_said_yes (option_copied text.entry) }
{
    match text {
        Some(said) if said == "true" => Some(said),
        _ => None,
    }
}

// What `clap` finds in words of a form, the first of them the command. It refuses them only for want of memory.
fn matches_of<'a>(
    alloc: Global,
    form: &WordForm<'a>,
    words: &'a [String],
) -> Result<ArgMatches<'a>, Error>
    requires proper { is_proper (form_view form.now) ≡ true }
    requires right { is_of_form (form_view form.now) (drop 1 (map string_bytes words.now)) ≡ true }
    ensures taken { IfErr result (λ error. kind_of error ≡ ErrorKind.OutOfMemory) }
    ensures read { IfOk result (λ matches. given_in (form_view form.now) (found_of matches)
        ≡ given_by (form_view form.now) (drop 1 (map string_bytes words.entry.now))) }
{
    let reader = form_command(alloc, form)?;
    reader.try_get_matches_from(words)
}

/// Words of a form, read by `clap`, the first of them the command.
pub fn read_form<'a>(
    alloc: Global,
    form: WordForm<'static>,
    words: &'a [String],
) -> Result<Matched<'a>, WordsFault>
    requires proper { is_proper (form_view form) ≡ true }
    requires right { is_of_form (form_view form) (drop 1 (map string_bytes words.now)) ≡ true }
    ensures read { IfOk result (λ matched. matched_given matched
        ≡ given_by (form_view form.entry) (drop 1 (map string_bytes words.entry.now))) }
    ensures refused { IfErr result (λ fault. fault ≡ WordsFault.NoMemory) }
{
    match matches_of(alloc, &form, words) {
        Ok(matches) => Ok(Matched { form, matches }),
        Err(_) => Err(WordsFault::NoMemory),
    }
}
