// What a side holds under an id.
ghost use Rattle.std.specs.Prelude.{◌≡◌};
ghost use Rattle.std.specs.Option.{option_copied, option_map};
ghost use Rattle.conduit_rules.specs.Borrowed.{held_of};
ghost use Rattle.conduit_rules.specs.States.{record_held, live_of, archived_of, content_of, state, equal_contents, held_where};
ghost use Rattle.conduit_rules.specs.Contents.{same_content};
ghost use Rattle.conduit_rules.specs.Views.{held_as, seen_where};

use crate::table::Side;
use crate::view::{Seen, SeenState};
use pdb_values::{Content, Kind, Record};

// A record that is deleted without leave to archive it is nothing.
#[derive(Clone, Copy)]
pub enum Holding<'a> {
    Nothing,
    Live(&'a Content),
    Archived(&'a Content),
}

impl<'a> Holding<'a> {
    // What a record is to its side.
    pub fn of_record(item: &'a Record) -> Holding<'a>
        ensures { held_of result ≡ record_held item.now }
    {
        match item.kind() {
            Kind::Live => Holding::Live(&item.content),
            Kind::Archived => Holding::Archived(&item.content),
            Kind::Deleted => Holding::Nothing,
        }
    }

    // What an entry of a view shows.
    pub fn of_seen(seen: &'a Seen) -> Holding<'a>
        ensures { held_of result ≡ held_as seen.now.state seen.now.content }
    {
        match seen.state {
            SeenState::Live | SeenState::Unread => Holding::Live(&seen.content),
            SeenState::Archived => Holding::Archived(&seen.content),
            SeenState::Deleted => Holding::Nothing,
        }
    }

    // What the view shows in front.
    pub fn seen_in(head: Option<(usize, &'a Seen)>) -> Holding<'a>
        ensures { held_of result ≡ seen_where (option_map (λ e. e.1.now) head.entry) }
    {
        match head {
            Some((_, seen)) => Holding::of_seen(seen),
            None => Holding::Nothing,
        }
    }

    // What the desktop's rows hold in front.
    pub fn row_in(head: Option<(usize, &'a Record)>) -> Holding<'a>
        ensures { held_of result ≡ held_where (option_map (λ e. e.1.now) head.entry) }
    {
        match head {
            Some((_, item)) => Holding::of_record(item),
            None => Holding::Nothing,
        }
    }

    // The content of a live record.
    pub fn live(self) -> Option<&'a Content>
        ensures { option_copied result ≡ live_of (held_of self.entry) }
    {
        match self {
            Holding::Live(content) => Some(content),
            Holding::Nothing | Holding::Archived(_) => None,
        }
    }

    // The content of an archived record.
    pub fn archived(self) -> Option<&'a Content>
        ensures { option_copied result ≡ archived_of (held_of self.entry) }
    {
        match self {
            Holding::Archived(content) => Some(content),
            Holding::Nothing | Holding::Live(_) => None,
        }
    }

    // The content of either.
    pub fn content(self) -> Option<&'a Content>
        ensures { option_copied result ≡ content_of (held_of self.entry) }
    {
        match self {
            Holding::Live(content) | Holding::Archived(content) => Some(content),
            Holding::Nothing => None,
        }
    }

    // The state against the content of the base row.
    pub fn state(self, base: &Content) -> Side
        ensures { result ≡ state base.now (held_of self.entry) }
    {
        match self {
            Holding::Nothing => Side::Deleted,
            Holding::Live(content) => {
                if is_same(content, base) {
                    Side::Same
                } else {
                    Side::Changed
                }
            }
            Holding::Archived(content) => {
                if is_same(content, base) {
                    Side::ArchivedSame
                } else {
                    Side::ArchivedChanged
                }
            }
        }
    }

    // Whether both sides hold a content, and the same one.
    pub fn equals(self, other: Holding<'_>) -> bool
        ensures { result ≡ equal_contents (held_of self.entry) (held_of other.entry) }
    {
        match (self.content(), other.content()) {
            (Some(content), Some(another)) => is_same(content, another),
            _ => false,
        }
    }
}

// Whether two contents are equal.
pub fn is_same(content: &Content, other: &Content) -> bool
    ensures { result ≡ same_content content.now other.now }
{
    content.same(other)
}
