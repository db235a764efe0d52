// Which databases words choose, and what is done with them.
ghost use Rattle.std.specs.Prelude.{◌≡◌};
ghost use Rattle.run_words.specs.Choices.{choice_in as choice_of_words};
ghost use Rattle.run_words.specs.Views.{choice_view};

use crate::reading::Reading;

/// A choice of databases, as words make it.
#[derive(Clone, Copy)]
pub struct ChoiceWords<'a> {
    /// The stems of the databases that are touched. Without them it is every database.
    pub only: Option<&'a str>,
    /// The text of the actions.
    pub actions: Option<&'a str>,
}

/// The choice that the words make.
pub(crate) fn choice_in<'a, R: Reading<'a>>(words: &R) -> ChoiceWords<'a>
    ensures { choice_view result ≡ choice_of_words (R.given words.now) }
{
    ChoiceWords {
        only: words.said("only"),
        actions: words.said("actions"),
    }
}
