// The words of a command that names a port in the place of a handheld's folder.
ghost use Rattle.std.specs.Prelude.{◌≡◌, map, string_bytes, option_map};
ghost use Rattle.run_words.specs.Porteds.{ported_in as ported_of_words, ported_of};
ghost use Rattle.run_words.specs.Views.{ported_view};

use crate::reading::Reading;
use crate::spoken::{names_port, right_words};
use crate::tables::PORTED;

/// A port, and what stands beside it.
#[derive(Clone, Copy)]
pub struct PortedWords<'a> {
    /// The path of the port.
    pub port: &'a str,
    /// The path of a folder.
    pub other: &'a str,
    /// The path of the trace that is written.
    pub trace: Option<&'a str>,
}

/// What words of its form give.
pub fn ported_in<'a, R: Reading<'a>>(words: &R) -> Option<PortedWords<'a>>
    ensures { option_map ported_view result ≡ ported_of_words (R.given words.now) }
{
    let other = words.plain(0)?;
    let port = words.said("port")?;
    Some(PortedWords {
        port,
        other,
        trace: words.said("trace"),
    })
}

/// What these words ask for behind this command, which name a port, or `None` exactly where they are not in its form.
#[tactic(auto, unfolding(crate::specs::Porteds::ported_of))]
pub fn ported_words<'a>(command: &str, words: &'a [String]) -> Option<PortedWords<'a>>
    ensures { option_map ported_view result
        ≡ ported_of command.now (map string_bytes words.entry.now) }
{
    if !names_port(words, command) {
        return None;
    }
    let spoken = right_words(None, PORTED, words)?;
    ported_in(&spoken)
}
