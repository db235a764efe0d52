// What is seen of the handheld's records.
ghost use Rattle.std.specs.Prelude.{◌≡◌, ◌<◌, IfOk};
ghost use Rattle.std.specs.Option.{option_copied};
ghost use Rattle.conduit_rules.specs.ById.{id_bound};
ghost use Rattle.conduit_rules.specs.Views as views;
ghost use Rattle.record_merge.specs.Merging.{AreBounded};
ghost use Rattle.session_plan.specs.Tasks.{records_of};

use conduit_rules::{Seen, SeenState, View};
use mirrors::in_order;
use pdb_values::{Database, Kind, Record};
use std::alloc::{AllocError, Global};

/// The records of a database that may not be there.
pub(crate) fn records_in(database: Option<&Database>) -> &[Record]
    ensures { result.now ≡ records_of (option_copied database.entry) }
{
    match database {
        Some(database) => database.records(),
        None => &[],
    }
}

// What an entry says of a record of this kind.
fn state_of(kind: Kind) -> SeenState
    ensures { result ≡ views.state_as kind }
{
    match kind {
        Kind::Live => SeenState::Live,
        Kind::Archived => SeenState::Archived,
        Kind::Deleted => SeenState::Deleted,
    }
}

// A record as an entry of a view.
#[tactic(auto, unfolding(conduit_rules::specs::ById::id_bound))]
fn seen_of(alloc: Global, item: &Record) -> Result<Seen, AllocError>
    ensures seen { IfOk result (λ seen. seen ≡ views.slow_seen item.now) }
    ensures bounded { IfOk result (λ seen. seen.id < id_bound) }
{
    let id = item.id;
    let _bound = id.number();
    Ok(Seen {
        id,
        state: state_of(item.kind()),
        content: item.content.copy(alloc)?,
    })
}

/// All records as a view that was read slowly.
#[tactic(auto, using(crate::proofs::SeenLaws::ordered_map, crate::proofs::SeenLaws::bounded_seen))]
pub(crate) fn slow_view(alloc: Global, records: &[Record]) -> Result<View, AllocError>
    ensures view { IfOk result (λ view. view.seen.items ≡ views.slow_view records.now) }
    ensures bounded { IfOk result (λ _. AreBounded records.now) }
{
    let mut seen = Vec::new(alloc);
    for item in records {
        seen.push(seen_of(alloc, item)?)?;
    }
    in_order(seen)
}
