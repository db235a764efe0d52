// What becomes of one id.
ghost use Rattle.std.specs.Prelude.{◌≡◌};
ghost use Rattle.std.specs.Option.{option_copied};
ghost use Rattle.conduit_rules.specs.Borrowed.{held_of, based_of, fate_of};
ghost use Rattle.conduit_rules.specs.Choices.{partner_under};
ghost use Rattle.conduit_rules.specs.Plans.{replacement, lost, is_purged};
ghost use Rattle.conduit_rules.specs.Fates.{fate, fate_under, desktop_fate, no_fate, cell, gone_cell, fate_by, unbased};

use crate::action::Action;
use crate::basis::Basis;
use crate::holding::{Holding, is_same};
use crate::table::{Archive, Keep, Outcome, Side, decide};
use pdb_values::Content;

// The content that both sides keep under the id, those that are archived, and the desktop's where it becomes a
// new record.
#[derive(Clone, Copy)]
pub struct Verdict<'a> {
    pub keep: Option<&'a Content>,
    pub archive: Option<&'a Content>,
    pub archive_too: Option<&'a Content>,
    pub news: Option<&'a Content>,
}

impl<'a> Verdict<'a> {
    // What becomes of an id by the action.
    pub fn of(
        action: Action,
        basis: Basis<'a>,
        handheld: Holding<'a>,
        desktop: Holding<'a>,
    ) -> Verdict<'a>
        ensures { fate_of result ≡ fate_under action (based_of basis.entry) (held_of handheld.entry)
            (held_of desktop.entry) }
    {
        match action {
            Action::Sync => Verdict::of_both(basis, handheld, desktop),
            Action::Handheld | Action::Both => Verdict::without_base(handheld),
            Action::Desktop => Verdict::of_desktop(basis, desktop),
        }
    }

    // Both sides are gone by.
    fn of_both(basis: Basis<'a>, handheld: Holding<'a>, desktop: Holding<'a>) -> Verdict<'a>
        ensures { fate_of result ≡ fate (based_of basis.entry) (held_of handheld.entry)
            (held_of desktop.entry) }
    {
        match basis {
            Basis::Nothing => Verdict::without_base(handheld),
            Basis::Row(base) => Verdict::under_row(base, handheld, desktop),
            Basis::Gone(base) => Verdict::under_gone_row(base, handheld),
        }
    }

    // The desktop is gone by: under a base row that isn't gone its row is all that counts.
    fn of_desktop(basis: Basis<'a>, desktop: Holding<'a>) -> Verdict<'a>
        ensures { fate_of result ≡ desktop_fate (based_of basis.entry) (held_of desktop.entry) }
    {
        match basis {
            Basis::Row(_) => Verdict::without_base(desktop),
            Basis::Nothing | Basis::Gone(_) => Verdict::nothing(),
        }
    }

    // Nothing becomes of the id.
    fn nothing() -> Verdict<'a>
        ensures { fate_of result ≡ no_fate }
    {
        Verdict {
            keep: None,
            archive: None,
            archive_too: None,
            news: None,
        }
    }

    // Without a base row a live record stays and an archived one is archived.
    fn without_base(handheld: Holding<'a>) -> Verdict<'a>
        ensures { fate_of result ≡ unbased (held_of handheld.entry) }
    {
        Verdict {
            keep: handheld.live(),
            archive: handheld.archived(),
            archive_too: None,
            news: None,
        }
    }

    // Under a base row the table decides.
    fn under_row(base: &'a Content, handheld: Holding<'a>, desktop: Holding<'a>) -> Verdict<'a>
        ensures { fate_of result ≡ cell base.now (held_of handheld.entry) (held_of desktop.entry) }
    {
        let equal = handheld.equals(desktop);
        let outcome = decide(handheld.state(base), desktop.state(base), equal);
        Verdict::by(outcome, base, handheld, desktop)
    }

    // Under a gone base row the desktop has nothing.
    fn under_gone_row(base: &'a Content, handheld: Holding<'a>) -> Verdict<'a>
        ensures { fate_of result ≡ gone_cell base.now (held_of handheld.entry) }
    {
        let outcome = decide(handheld.state(base), Side::Gone, false);
        Verdict::by(outcome, base, handheld, Holding::Nothing)
    }

    // An outcome in contents.
    fn by(
        outcome: Outcome,
        base: &'a Content,
        handheld: Holding<'a>,
        desktop: Holding<'a>,
    ) -> Verdict<'a>
        ensures { fate_of result ≡ fate_by outcome base.now (held_of handheld.entry)
            (held_of desktop.entry) }
    {
        let keep = match outcome.keep {
            Keep::None => None,
            Keep::Base => Some(base),
            Keep::Handheld => handheld.content(),
            Keep::Desktop => desktop.content(),
        };
        let (archive, archive_too) = match outcome.archive {
            Archive::None => (None, None),
            Archive::Base => (Some(base), None),
            Archive::Handheld => (handheld.content(), None),
            Archive::Desktop => (desktop.content(), None),
            Archive::Both => (handheld.content(), desktop.content()),
        };
        let news = if outcome.news {
            desktop.content()
        } else {
            None
        };
        Verdict {
            keep,
            archive,
            archive_too,
            news,
        }
    }

    // What has to be written over the handheld's record: the content that is kept, where the record isn't live
    // with it.
    pub fn replacement(self, handheld: Holding<'_>) -> Option<&'a Content>
        ensures { option_copied result ≡ replacement (option_copied self.entry.keep)
            (held_of handheld.entry) }
    {
        let kept = self.keep?;
        match handheld {
            Holding::Live(content) if is_same(content, kept) => None,
            _ => Some(kept),
        }
    }

    // What the handheld's record had, where nothing is kept.
    pub fn lost<'b>(self, handheld: Holding<'b>) -> Option<&'b Content>
        ensures { option_copied result ≡ lost (option_copied self.entry.keep)
            (held_of handheld.entry) }
    {
        match self.keep {
            Some(_) => None,
            None => handheld.content(),
        }
    }

    // Whether the handheld's record is live and isn't kept.
    pub fn purges(self, handheld: Holding<'_>) -> bool
        ensures { result ≡ is_purged (option_copied self.entry.keep) (held_of handheld.entry) }
    {
        self.keep.is_none() && handheld.live().is_some()
    }
}

// A new record of the handheld that is to be paired: where both sides are gone by, a live one without a base row,
// or any live one where the base isn't looked at.
pub fn partner_of<'a>(
    action: Action,
    basis: Basis<'_>,
    handheld: Holding<'a>,
) -> Option<&'a Content>
    ensures { option_copied result ≡ partner_under action (based_of basis.entry)
        (held_of handheld.entry) }
{
    match (action, basis) {
        (Action::Sync, Basis::Nothing) | (Action::Both, _) => handheld.live(),
        _ => None,
    }
}
