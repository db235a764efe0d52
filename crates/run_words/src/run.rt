// The words of a run.
ghost use Rattle.std.specs.Prelude.{◌≡◌, option_map};
ghost use Rattle.pdb_values.specs.PalmDates.{if_later};
ghost use Rattle.run_words.specs.Runs.{date_at, run_in as run_of_words};
ghost use Rattle.run_words.specs.Views.{run_view};

use crate::choice::{ChoiceWords, choice_in};
use crate::reading::Reading;
use pdb_values::PalmDate;

/// A run, as the words ask for it.
#[derive(Drop)]
pub struct RunWords<'a> {
    /// The path of the handheld's folder.
    pub handheld: &'a str,
    /// The path of the desktop's folder.
    pub desktop: &'a str,
    /// The session's date.
    pub date: PalmDate,
    /// The path of the line's script.
    pub script: Option<&'a str>,
    /// The path of the trace that is written.
    pub trace: Option<&'a str>,
    /// The choice of databases.
    pub choice: ChoiceWords<'a>,
    /// Whether each database is read whole.
    pub slow: bool,
    /// The name that the handheld's user is to have.
    pub user: Option<&'a str>,
    /// Whether a user that the desktop doesn't know is added.
    pub add_user: bool,
}

/// The date of a date word. `now` is the date now, whose seconds are given where it can be told and which is later than 0 seconds.
pub fn date_in(now: Option<u32>, word: &str) -> Option<PalmDate>
    ensures { result ≡ date_at now word.now }
{
    if word == "now" {
        return later_date(now);
    }
    match PalmDate::read_text(word) {
        Ok(date) => Some(date),
        Err(_) => None,
    }
}

// The date of some seconds. 0 seconds stand for none.
fn later_date(seconds: Option<u32>) -> Option<PalmDate>
    ensures { result ≡ if_later seconds }
{
    match seconds {
        Some(seconds) if seconds > 0 => Some(PalmDate::of_seconds(seconds)),
        _ => None,
    }
}

// The run that the words give, at the date now.
pub(crate) fn run_in<'a, R: Reading<'a>>(now: Option<u32>, words: &R) -> Option<RunWords<'a>>
    ensures { option_map run_view result ≡ run_of_words now (R.given words.now) }
{
    let handheld = words.plain(0)?;
    let desktop = words.plain(1)?;
    let date = date_in(now, words.said("date")?)?;
    Some(RunWords {
        handheld,
        desktop,
        date,
        script: words.said("script"),
        trace: words.said("trace"),
        choice: choice_in(words),
        slow: words.said("slow").is_some(),
        user: words.said("user"),
        add_user: words.said("add-user").is_some(),
    })
}
