// The words of a command between a handheld and another path.
ghost use Rattle.std.specs.Prelude.{◌≡◌, option_map};
ghost use Rattle.run_words.specs.Betweens.{between_in as between_of_words};
ghost use Rattle.run_words.specs.Views.{between_view};

use crate::reading::Reading;

/// Two paths, and what may stand beside them.
#[derive(Clone, Copy)]
pub struct BetweenWords<'a> {
    /// The path of the handheld's folder.
    pub handheld: &'a str,
    /// The path of the other folder, or of the file.
    pub other: &'a str,
    /// The path of the line's script.
    pub script: Option<&'a str>,
    /// The path of the trace that is written.
    pub trace: Option<&'a str>,
}

// What the words give.
pub(crate) fn between_in<'a, R: Reading<'a>>(words: &R) -> Option<BetweenWords<'a>>
    ensures { option_map between_view result ≡ between_of_words (R.given words.now) }
{
    let handheld = words.plain(0)?;
    let other = words.plain(1)?;
    Some(BetweenWords {
        handheld,
        other,
        script: words.said("script"),
        trace: words.said("trace"),
    })
}
