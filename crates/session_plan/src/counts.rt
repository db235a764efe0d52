// What is counted of a database.
ghost use Rattle.std.specs.Prelude.{◌≡◌, ◌==◌, ◌≤◌, not, filter, length};
ghost use Rattle.std.specs.List.{list_any};
ghost use Rattle.conduit_rules.specs.declared.view.Seen.{Seen};
ghost use Rattle.session_plan.specs.Reports as reports;

use conduit_rules::{Seen, SeenState};
use pdb_values::{Content, RecordId};

// Whether an entry of a view was received.
fn is_received(seen: &Seen) -> bool
    ensures { result ≡ reports.is_received seen.now.state }
{
    match seen.state {
        SeenState::Unread => false,
        _ => true,
    }
}

/// How many records were received.
pub fn read_count(view: &[Seen]) -> usize
    ensures count { result ≡ reports.read_count view.now }
    ensures few { result ≤ length view.now }
{
    view.iter().filter(|seen| is_received(seen)).count()
}
