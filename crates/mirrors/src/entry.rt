// The entries of a view.
ghost use Rattle.std.specs.Prelude.{◌≡◌, ◌≤◌, IfOk, length};
ghost use Rattle.conduit_rules.specs.Views.{state_as};
ghost use Rattle.desktop_session.specs.Lent.{lent_value};
ghost use Rattle.mirrors.specs.Entries.{seen_of};

use conduit_rules::{Seen, SeenState};
use desktop_session::RecordLent;
use pdb_values::{Content, Kind};
use std::alloc::{AllocError, Global};

/// The entry of a record that was lent, which has at most 65,500 bytes, with a copy of these.
pub fn entry_of(alloc: Global, lent: &RecordLent<'_>) -> Result<Seen, AllocError>
    requires { length (lent_value lent.now).bytes ≤ 65500 }
    ensures { IfOk result (λ seen. seen ≡ seen_of (lent_value lent.now)) }
{
    let bytes = Vec::from_slice(alloc, lent.bytes())?;
    let Ok(content) = Content::new(lent.category(), lent.secret(), bytes) else {
        unreachable!();
    };
    Ok(Seen {
        id: lent.id(),
        state: state_of(lent.kind()),
        content,
    })
}

// What an entry says of a record of this kind.
fn state_of(kind: Kind) -> SeenState
    ensures { result ≡ state_as kind }
{
    match kind {
        Kind::Live => SeenState::Live,
        Kind::Archived => SeenState::Archived,
        Kind::Deleted => SeenState::Deleted,
    }
}
