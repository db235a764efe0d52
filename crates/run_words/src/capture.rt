// The words of a handheld over captured bytes.
ghost use Rattle.std.specs.Prelude.{◌≡◌, option_map};
ghost use Rattle.run_words.specs.Captures.{capture_in as capture_of_words};
ghost use Rattle.run_words.specs.Views.{capture_view};

use crate::reading::Reading;

/// A handheld's folder, and what it hears and says.
#[derive(Clone, Copy)]
pub struct CaptureWords<'a> {
    /// The path of the handheld's folder.
    pub handheld: &'a str,
    /// The path of the bytes that it hears.
    pub input: &'a str,
    /// The path for the bytes that it says.
    pub output: &'a str,
}

// What the words give.
pub(crate) fn capture_in<'a, R: Reading<'a>>(words: &R) -> Option<CaptureWords<'a>>
    ensures { option_map capture_view result ≡ capture_of_words (R.given words.now) }
{
    let handheld = words.plain(0)?;
    let input = words.said("in")?;
    let output = words.said("out")?;
    Some(CaptureWords {
        handheld,
        input,
        output,
    })
}
