// The words of a session over a cable.
ghost use Rattle.std.specs.Prelude.{◌≡◌, map, string_bytes, option_map};
ghost use Rattle.run_words.specs.Cables.{begins_sync, cable_in as cable_of_words, cable_of, dated_between as cable_of_date, ported_run_in as cable_of_run, ported_run_of, sync_of};
ghost use Rattle.run_words.specs.Views.{cable_view};

use crate::form::has_flag;
use crate::reading::Reading;
use crate::run::date_in;
use crate::spoken::{begins, behind_first, names_port, right_words};
use crate::tables::{CABLE, PORTED_RUN};
use pdb_values::PalmDate;

/// A session over a cable, as the words ask for it.
#[derive(Drop)]
pub struct CableWords<'a> {
    /// The path of the port.
    pub port: &'a str,
    /// The path of the desktop's folder.
    pub desktop: &'a str,
    /// The session's date.
    pub date: PalmDate,
    /// The stems of the databases that are touched.
    pub only: Option<&'a str>,
    /// The path of the trace that is written.
    pub trace: Option<&'a str>,
    /// The text of the actions.
    pub actions: Option<&'a str>,
    /// Whether each database is read whole.
    pub slow: bool,
    /// The name that the handheld's user is to have.
    pub user: Option<&'a str>,
    /// Whether a user that the desktop doesn't know is added.
    pub add_user: bool,
}

/// The session that words behind `sync` give, at the date now.
#[tactic(auto, unfolding(crate::specs::Cables::cable_in))]
pub fn cable_in<'a, R: Reading<'a>>(now: Option<u32>, words: &R) -> Option<CableWords<'a>>
    ensures { option_map cable_view result ≡ cable_of_words now (R.given words.now) }
{
    let port = words.plain(0)?;
    let desktop = words.plain(1)?;
    dated_between(now, words, port, desktop)
}

/// The session that words behind `run` give that name a port, at the date now.
#[tactic(auto, unfolding(crate::specs::Cables::ported_run_in))]
pub fn ported_run_in<'a, R: Reading<'a>>(now: Option<u32>, words: &R) -> Option<CableWords<'a>>
    ensures { option_map cable_view result ≡ cable_of_run now (R.given words.now) }
{
    let port = words.said("port")?;
    let desktop = words.plain(0)?;
    dated_between(now, words, port, desktop)
}

// The session at this port with this folder, with what the words give beside them.
fn dated_between<'a, R: Reading<'a>>(
    now: Option<u32>,
    words: &R,
    port: &'a str,
    desktop: &'a str,
) -> Option<CableWords<'a>>
    ensures { option_map cable_view result
        ≡ cable_of_date now (R.given words.now) port.entry.now desktop.entry.now }
{
    let date = date_in(now, words.said("date")?)?;
    Some(CableWords {
        port,
        desktop,
        date,
        only: words.said("only"),
        trace: words.said("trace"),
        actions: words.said("actions"),
        slow: words.said("slow").is_some(),
        user: words.said("user"),
        add_user: words.said("add-user").is_some(),
    })
}

/// Whether the first word asks for a session over a cable, as `run` does where a port is named, and none behind it for
/// help.
pub fn is_sync(words: &[String]) -> bool
    ensures { result ≡ begins_sync (map string_bytes words.now) }
{
    (names_port(words, "run") || begins(words, "sync")) && !has_flag(behind_first(words), "help")
}

// The session that words behind `run` ask for, which name the port.
fn ported_run_words<'a>(now: Option<u32>, words: &'a [String]) -> Option<CableWords<'a>>
    ensures { option_map cable_view result ≡ ported_run_of now (map string_bytes words.entry.now) }
{
    let spoken = right_words(now, PORTED_RUN, words)?;
    ported_run_in(now, &spoken)
}

// The session that words ask for whose first is `sync`.
fn cable_words<'a>(now: Option<u32>, words: &'a [String]) -> Option<CableWords<'a>>
    ensures { option_map cable_view result ≡ cable_of now (map string_bytes words.entry.now) }
{
    if !begins(words, "sync") {
        return None;
    }
    let spoken = right_words(now, CABLE, words)?;
    cable_in(now, &spoken)
}

/// The session over a cable that these words ask for, as `run` with a port or `sync` do, or `None` exactly where they are
/// not in its form. `now` is the date now in seconds, if it can be told.
#[tactic(auto, unfolding(crate::specs::Cables::sync_of))]
pub fn sync_words<'a>(now: Option<u32>, words: &'a [String]) -> Option<CableWords<'a>>
    ensures { option_map cable_view result ≡ sync_of now (map string_bytes words.entry.now) }
{
    if names_port(words, "run") {
        ported_run_words(now, words)
    } else {
        cable_words(now, words)
    }
}
