// The words of a handheld at a port.
ghost use Rattle.std.specs.Prelude.{◌≡◌, map, string_bytes, option_map};
ghost use Rattle.run_words.specs.Docks.{begins_dock, dock_in as dock_of_words, docking_of};
ghost use Rattle.run_words.specs.Views.{dock_view};

use crate::reading::Reading;
use crate::spoken::{begins, names_port, right_words};
use crate::tables::DOCK;

/// A handheld's folder, and the port that it stands at.
#[derive(Clone, Copy)]
pub struct DockWords<'a> {
    /// The path of the handheld's folder.
    pub handheld: &'a str,
    /// The path of the port.
    pub port: &'a str,
    /// The path of the trace that is written.
    pub trace: Option<&'a str>,
}

/// What words of its form give.
pub fn dock_in<'a, R: Reading<'a>>(words: &R) -> Option<DockWords<'a>>
    ensures { option_map dock_view result ≡ dock_of_words (R.given words.now) }
{
    let handheld = words.plain(0)?;
    let port = words.said("port")?;
    Some(DockWords {
        handheld,
        port,
        trace: words.said("trace"),
    })
}

/// Whether the words ask for a handheld at a port: the first is `device`, and one behind it names a port.
pub fn is_docking(words: &[String]) -> bool
    ensures { result ≡ begins_dock (map string_bytes words.now) }
{
    names_port(words, "device")
}

/// The handheld at a port that these words ask for, or `None` exactly where they are not in its form.
#[tactic(auto, unfolding(crate::specs::Docks::docking_of))]
pub fn docking_words<'a>(words: &'a [String]) -> Option<DockWords<'a>>
    ensures { option_map dock_view result ≡ docking_of (map string_bytes words.entry.now) }
{
    if !begins(words, "device") {
        return None;
    }
    let spoken = right_words(None, DOCK, words)?;
    dock_in(&spoken)
}
