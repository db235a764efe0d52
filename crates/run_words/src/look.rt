// Looks at a file.
ghost use Rattle.std.specs.Prelude.{◌≡◌, option_copied};
ghost use Rattle.run_words.specs.Exports.{dated_form, export_form_of, import_form_of, is_form_word as is_word_of_form, plain_form};

use crate::run::date_in;

/// The form of a text of what a database holds.
#[derive(Clone, Copy, PartialEq, Eq)]
pub enum ExportForm {
    /// Plain text: `--as=txt`.
    Text,
    /// Cards: `--as=vcf`.
    Cards,
    /// A table: `--as=csv`.
    Table,
    /// A calendar that says when it was made, in seconds since 1904-01-01T00:00:00: `--as=ics --date=D`.
    Calendar(u32),
}

/// The form of a text of which a database is made.
#[derive(Clone, Copy, PartialEq, Eq)]
pub enum ImportForm {
    /// Plain text: `--as=txt`.
    Text,
}

/// How a database is exported.
#[derive(Clone, Copy, PartialEq, Eq)]
pub struct Export {
    /// The form of the text.
    pub form: ExportForm,
    /// Whether private records are left out: `--without-private`.
    pub without_private: bool,
    /// Whether a record that is out of its form stands in the text as it is: `--keep-broken`.
    pub keep_broken: bool,
    /// Whether the fields of a table stand as they are, those too that a spreadsheet takes for formulas: `--raw`.
    pub raw: bool,
}

/// What is wanted of a file: of the database in it, of the text, or of the trace.
#[derive(Clone, Copy, PartialEq, Eq)]
pub enum Look {
    /// The number of its entries.
    Check,
    /// All that it holds, in lines.
    Show,
    /// The same, and in the line of each entry its bytes as text.
    Records,
    /// The text of what its records say.
    Export(Export),
    /// The database of what the text in it says.
    Import(ImportForm),
    /// Whether the trace in it is proper.
    Verify,
    /// The page of the trace in it.
    Picture,
}

/// A look at a file.
#[derive(Clone, Copy)]
pub struct LookWords<'a> {
    /// What is wanted of it.
    pub look: Look,
    /// Its path.
    pub file: &'a str,
}

// The form of a text that has no date.
fn plain_form(word: &str) -> Option<ExportForm>
    ensures { result ≡ plain_form word.now }
{
    match word {
        "txt" => Some(ExportForm::Text),
        "vcf" => Some(ExportForm::Cards),
        "csv" => Some(ExportForm::Table),
        _ => None,
    }
}

// The form of a text that has this date.
fn dated_form(now: Option<u32>, word: &str, date: &str) -> Option<ExportForm>
    ensures { result ≡ dated_form now word.now date.now }
{
    if word != "ics" {
        return None;
    }
    let made = date_in(now, date)?;
    Some(ExportForm::Calendar(made.seconds()))
}

/// The form of a text that a word names, and the word of its date where there is one. `now` is the date now in seconds, if it
/// can be told.
pub fn export_form_in(now: Option<u32>, word: &str, date: Option<&str>) -> Option<ExportForm>
    ensures { result ≡ export_form_of now word.now (option_copied date.entry) }
{
    match date {
        Some(date) => dated_form(now, word, date),
        None => plain_form(word),
    }
}

/// Whether a word is one of those that name the form of a text.
pub(crate) fn is_form_word(word: &str) -> bool
    ensures { result ≡ is_word_of_form word.now }
{
    match word {
        "txt" => true,
        "vcf" => true,
        "csv" => true,
        "ics" => true,
        _ => false,
    }
}

/// The form of a text that a word names, of which a database is made.
pub fn import_form_in(word: &str) -> Option<ImportForm>
    ensures { result ≡ import_form_of word.now }
{
    if word == "txt" {
        Some(ImportForm::Text)
    } else {
        None
    }
}
