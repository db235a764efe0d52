// The words of an import in the categories of another file.
ghost use Rattle.std.specs.Prelude.{◌≡◌, map, string_bytes, option_map};
ghost use Rattle.run_words.specs.Exports.{import_in as import_of_words};
ghost use Rattle.run_words.specs.Likes.{begins_like, like_in as like_of_words, liking_of, names_like as names_other};
ghost use Rattle.run_words.specs.Views.{like_view};

use crate::form::{has_flag, value_of};
use crate::look::{ImportForm, import_form_in};
use crate::reading::Reading;
use crate::spoken::{begins, behind_first, right_words};
use crate::tables::IMPORT;

/// A text, and the file whose categories its database has.
#[derive(Clone, Copy)]
pub struct LikeWords<'a> {
    /// The form of the text.
    pub form: ImportForm,
    /// The path of the text.
    pub file: &'a str,
    /// The path of the other file.
    pub like: &'a str,
}

// The form of the text of which the words want a database.
pub(crate) fn import_in<'a, R: Reading<'a>>(words: &R) -> Option<ImportForm>
    ensures { result ≡ import_of_words (R.given words.now) }
{
    import_form_in(words.said("as")?)
}

/// What words of its form give.
pub fn like_in<'a, R: Reading<'a>>(words: &R) -> Option<LikeWords<'a>>
    ensures { option_map like_view result ≡ like_of_words (R.given words.now) }
{
    let file = words.plain(0)?;
    let form = import_in(words)?;
    let like = words.said("like")?;
    Some(LikeWords { form, file, like })
}

// Whether one of the words names another file, and none asks for help.
fn names_like(words: &[String]) -> bool
    ensures { result ≡ names_other (map string_bytes words.now) }
{
    value_of(words, "like").is_some() && !has_flag(words, "help")
}

/// Whether the words ask for an import in the categories of another file: the first is `import`, and of those behind it one
/// names a file, and none asks for help.
pub fn is_liking(words: &[String]) -> bool
    ensures { result ≡ begins_like (map string_bytes words.now) }
{
    begins(words, "import") && names_like(behind_first(words))
}

/// The import in the categories of another file that these words ask for, or `None` exactly where they are not in its form.
#[tactic(auto, unfolding(crate::specs::Likes::liking_of))]
pub fn liking_words<'a>(words: &'a [String]) -> Option<LikeWords<'a>>
    ensures { option_map like_view result ≡ liking_of (map string_bytes words.entry.now) }
{
    if !begins(words, "import") {
        return None;
    }
    let spoken = right_words(None, IMPORT, words)?;
    like_in(&spoken)
}
