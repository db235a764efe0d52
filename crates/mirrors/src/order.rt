// The entries of a view in their order.
ghost use Rattle.std.specs.Prelude.{◌≡◌, IfOk};
ghost use Rattle.mirrors.specs.Entries.{AreBounded, ordered};

use conduit_rules::{Seen, View};
use std::alloc::AllocError;

/// The view of a database's entries as they were read: in rising ids, and of those of one id the
/// first.
pub fn in_order(seen: Vec<Seen>) -> Result<View, AllocError>
    requires { AreBounded seen.items }
    ensures ordered { IfOk result (λ view. view.seen.items ≡ ordered seen.items) }
    ensures rising { IfOk result (λ view. ordered view.seen.items ≡ view.seen.items) }
{
    let mut seen = seen;
    seen.sort_by_key(|entry| entry.id.number())?;
    seen.dedup_by(|later, kept| later.id == kept.id);
    Ok(View { seen })
}
