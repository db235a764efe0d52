// What the base has under an id.
ghost use Rattle.std.specs.Prelude.{◌≡◌, ◌&&◌, ◌||◌, not, false, nat_lt};
ghost use Rattle.conduit_rules.specs.Borrowed.{based_of};
ghost use Rattle.conduit_rules.specs.Fates.{looks_at_base};
ghost use Rattle.conduit_rules.specs.States.{based_under, is_row};
ghost use Rattle.std.specs.Option.{option_map};

use crate::action::Action;
use pdb_values::{Content, Record, RecordId};

#[derive(Clone, Copy)]
pub enum Basis<'a> {
    Nothing,
    Row(&'a Content),
    Gone(&'a Content),
}

impl<'a> Basis<'a> {
    // What the base has under an id, by the entry in front that bears it. The id 0 names no row.
    pub fn in_front(id: RecordId, head: Option<(usize, &'a Record)>, gone_counts: bool) -> Basis<'a>
        ensures { based_of result ≡ based_under gone_counts id
            (option_map (λ e. e.1.now) head.entry) }
    {
        if id.number() == 0 {
            return Basis::Nothing;
        }
        match head {
            Some((_, item)) if !item.deleted => Basis::Row(&item.content),
            Some((_, item)) if gone_counts => Basis::Gone(&item.content),
            _ => Basis::Nothing,
        }
    }

    // Whether it is a row that isn't gone.
    pub fn is_row(self) -> bool
        ensures { result ≡ is_row (based_of self.entry) }
    {
        match self {
            Basis::Row(_) => true,
            Basis::Nothing | Basis::Gone(_) => false,
        }
    }
}

// Whether a row in front counts by itself: its id came before, the base has none, or isn't looked at.
pub fn is_loose(action: Action, id: RecordId, base: Option<(usize, &Record)>, next: u32) -> bool
    ensures { let basis = based_under false id (option_map (λ e. e.1.now) base.entry) in
        result ≡ (nat_lt id next || not (looks_at_base action && is_row basis)) }
{
    id.number() < next || !(action.looks_at_base() && Basis::in_front(id, base, false).is_row())
}
