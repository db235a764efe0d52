// The least id that three lists have in front.
ghost use Rattle.std.specs.Prelude.{◌≡◌, ◌+◌, MatchOption, IfSome, is_some, slice_get};
ghost use Rattle.std.specs.Option.{option_map};
ghost use Rattle.conduit_rules.specs.Fronts.{IsFront, NoneAhead, head_id_of, lesser_of};
ghost use Rattle.conduit_rules.specs.Runs.{where_id};

use crate::has_id::HasId;
use crate::run::Run;
use crate::steps::Steps;
use crate::view::Seen;
use pdb_values::{Record, RecordId};
use std::sync::ledger::Ledger;

// The least id of the entries in front, and those of them that bear it, with their places.
#[derive(Clone, Copy)]
pub struct Front<'a> {
    pub id: RecordId,
    pub seen: Option<(usize, &'a Seen)>,
    pub row: Option<(usize, &'a Record)>,
    pub base: Option<(usize, &'a Record)>,
}

impl<'a> Front<'a> {
    // What is in front of the view, the rows and the base. None: nothing is ahead in any.
    pub fn of<L: Ledger>(
        view: &Run<'a, Seen>,
        rows: &Run<'a, Record>,
        base: &Run<'a, Record>,
        steps: &mut Steps<L>,
    ) -> Option<Front<'a>>
        ensures front { MatchOption result (NoneAhead view.now.ahead rows.now.ahead base.now.ahead)
            (λ f. IsFront f view.now.ahead rows.now.ahead base.now.ahead) }
        ensures step { steps.new ≡ steps.old + 3 }
    {
        let seen = view.head(steps);
        let row = rows.head(steps);
        let old = base.head(steps);
        let least = lesser_id(lesser_id(head_id(seen), head_id(row)), head_id(old));
        match least {
            Some(id) => Some(Front {
                id,
                seen: at_id(seen, id),
                row: at_id(row, id),
                base: at_id(old, id),
            }),
            None => None,
        }
    }
}

fn head_id<T: HasId>(head: Option<(usize, &T)>) -> Option<RecordId>
    ensures { result ≡ head_id_of T.id_of (option_map (λ e. (e.0, e.1.now)) head.entry) }
{
    match head {
        Some((_, item)) => Some(item.id()),
        None => None,
    }
}

fn lesser_id(left: Option<RecordId>, right: Option<RecordId>) -> Option<RecordId>
    ensures { result ≡ lesser_of left right }
{
    match (left, right) {
        (Some(id), Some(other)) => Some(if other.number() < id.number() {
            other
        } else {
            id
        }),
        (None, other) => other,
        (id, None) => id,
    }
}

// The entry, where it bears this id.
fn at_id<'a, T: HasId>(head: Option<(usize, &'a T)>, id: RecordId) -> Option<(usize, &'a T)>
    ensures { option_map (λ e. (e.0, e.1.now)) result
        ≡ where_id T.id_of id (option_map (λ e. (e.0, e.1.now)) head.entry) }
{
    match head {
        Some((_, item)) if item.id() == id => head,
        _ => None,
    }
}
