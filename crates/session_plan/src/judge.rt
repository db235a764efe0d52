// Which databases are skipped.
ghost use Rattle.std.specs.Prelude.{◌≡◌};
ghost use Rattle.std.specs.Option.{option_copied};
ghost use Rattle.pdb_values.specs.Heads as heads;
ghost use Rattle.session_plan.specs.Skips.{differ, is_missing, one_passes, passes, reason, reason_by};
ghost use Rattle.session_plan.specs.Tasks.{action_of_word};

use conduit_rules::Action;
use pdb_values::DbHead;
use run_words::ActionWord;
use session_parts::Skip;

/// The action of a word; none where nothing is to be done.
pub fn action_of(word: ActionWord) -> Option<Action>
    ensures { result ≡ action_of_word word }
{
    match word {
        ActionWord::Sync => Some(Action::Sync),
        ActionWord::Handheld => Some(Action::Handheld),
        ActionWord::Desktop => Some(Action::Desktop),
        ActionWord::Both => Some(Action::Both),
        ActionWord::Nothing => None,
    }
}

// Whether a database holds resources, where there is one.
fn holds_resources(head: Option<&DbHead>) -> bool
    ensures { result ≡ passes heads.holds_resources (option_copied head.entry) }
{
    match head {
        Some(head) => head.holds_resources(),
        None => false,
    }
}

// Whether a database is not to be changed, where there is one.
fn is_read_only(head: Option<&DbHead>) -> bool
    ensures { result ≡ passes heads.is_read_only (option_copied head.entry) }
{
    match head {
        Some(head) => head.is_read_only(),
        None => false,
    }
}

// Whether a database is a stream, where there is one.
fn is_stream(head: Option<&DbHead>) -> bool
    ensures { result ≡ passes heads.is_stream (option_copied head.entry) }
{
    match head {
        Some(head) => head.is_stream(),
        None => false,
    }
}

// Whether both sides have it and its type or its creator differs.
fn differs(handheld: Option<&DbHead>, rows: Option<&DbHead>) -> bool
    ensures { result ≡ differ (option_copied handheld.entry) (option_copied rows.entry) }
{
    match (handheld, rows) {
        (Some(handheld), Some(rows)) => {
            !(handheld.kind.0 == rows.kind.0 && handheld.creator.0 == rows.creator.0)
        }
        _ => false,
    }
}

// Whether the side is missing that the action goes by, or the handheld lost what both had.
fn misses(action: Action, handheld: Option<&DbHead>, rows: Option<&DbHead>, base: bool) -> bool
    ensures { result ≡ is_missing action (option_copied handheld.entry)
        (option_copied rows.entry) base }
{
    match action {
        Action::Sync | Action::Both => handheld.is_none() && base,
        Action::Handheld => handheld.is_none(),
        Action::Desktop => rows.is_none(),
    }
}

// The first reason of a database with an action.
fn reason_of(
    action: Action,
    handheld: Option<&DbHead>,
    rows: Option<&DbHead>,
    base: bool,
) -> Option<Skip>
    ensures { result ≡ reason action (option_copied handheld.entry)
        (option_copied rows.entry) base }
{
    if holds_resources(handheld) || holds_resources(rows) {
        Some(Skip::Resource)
    } else if is_read_only(handheld) || is_read_only(rows) {
        Some(Skip::ReadOnly)
    } else if is_stream(handheld) || is_stream(rows) {
        Some(Skip::Stream)
    } else if differs(handheld, rows) {
        Some(Skip::Differs)
    } else if misses(action, handheld, rows, base) {
        Some(Skip::Missing)
    } else {
        None
    }
}

/// Why a database is skipped, if it is: by its action, the heads of the handheld's database and of the desktop's rows, where
/// they are there, and whether the desktop has base rows of it. The first reason of `Skip` that holds is answered.
pub fn skip_of(
    action: Option<Action>,
    handheld: Option<&DbHead>,
    rows: Option<&DbHead>,
    base: bool,
) -> Option<Skip>
    ensures { result ≡ reason_by action (option_copied handheld.entry)
        (option_copied rows.entry) base }
{
    match action {
        Some(action) => reason_of(action, handheld, rows, base),
        None => Some(Skip::Nothing),
    }
}
