// A plan in the making.
ghost use Rattle.std.specs.Prelude.{◌≡◌, ◌++◌, ◌<◌, ◌≤◌, [], map, OnOk, IfOk, option_to_list};
ghost use Rattle.std.specs.Option.{option_copied};
ghost use Rattle.conduit_rules.specs.Borrowed.{based_of, fate_of, held_of};
ghost use Rattle.conduit_rules.specs.ById.{with_id};
ghost use Rattle.conduit_rules.specs.Choices.{Sides};
ghost use Rattle.conduit_rules.specs.Plans.{replacement, lost, purged_at, IsPlan};
ghost use Rattle.conduit_rules.specs.Drafts.{IfLoose, IsDraft, GrewUnder};
ghost use Rattle.conduit_rules.specs.News.{found_in};
ghost use Rattle.conduit_rules.specs.declared.action.Action.{Action};

use crate::action::Action;
use crate::basis::Basis;
use crate::holding::Holding;
use crate::loose::collect_loose;
use crate::news::leave_unpaired;
use crate::planned::Plan;
use crate::rows::{push_archived, push_content, push_id, push_row};
use crate::verdict::{Verdict, partner_of};
use pdb_values::{Content, Record, RecordId};
use std::alloc::{AllocError, Global};

// The lists of a plan, but for the adds, and the new records of both sides, which decide these.
#[derive(Drop)]
pub struct Draft {
    pub kept: Vec<(RecordId, Content)>,
    pub replace: Vec<(RecordId, Content)>,
    pub archive: Vec<(RecordId, Content)>,
    pub gone: Vec<(RecordId, Content)>,
    pub purge: Vec<RecordId>,
    pub partners: Vec<Content>,
    pub news: Vec<Content>,
}

impl Draft {
    // With no entries.
    pub fn new(alloc: Global) -> Draft
        ensures kept { result.kept.items ≡ [] }
        ensures replace { result.replace.items ≡ [] }
        ensures archive { result.archive.items ≡ [] }
        ensures gone { result.gone.items ≡ [] }
        ensures purge { result.purge.items ≡ [] }
        ensures partners { result.partners.items ≡ [] }
        ensures news { result.news.items ≡ [] }
    {
        Draft {
            kept: Vec::new(alloc),
            replace: Vec::new(alloc),
            archive: Vec::new(alloc),
            gone: Vec::new(alloc),
            purge: Vec::new(alloc),
            partners: Vec::new(alloc),
            news: Vec::new(alloc),
        }
    }

    // What becomes of one id goes to the ends of the lists.
    fn take_up(
        &mut self,
        alloc: Global,
        id: RecordId,
        verdict: Verdict<'_>,
        handheld: Holding<'_>,
        partner: Option<&Content>,
    ) -> Result<(), AllocError>
        ensures kept { OnOk result (self.new.kept.items ≡ self.old.kept.items
            ++ with_id id (fate_of verdict.entry).keep) }
        ensures replace { OnOk result (self.new.replace.items
            ≡ self.old.replace.items ++ with_id id
            (replacement (fate_of verdict.entry).keep (held_of handheld.entry))) }
        ensures archive { OnOk result (self.new.archive.items
            ≡ self.old.archive.items ++ map (λ c. (id, c)) (fate_of verdict.entry).archive) }
        ensures gone { OnOk result (self.new.gone.items
            ≡ self.old.gone.items ++ with_id id
            (lost (fate_of verdict.entry).keep (held_of handheld.entry))) }
        ensures purge { OnOk result (self.new.purge.items
            ≡ self.old.purge.items ++ purged_at (fate_of verdict.entry).keep
            (held_of handheld.entry) id) }
        ensures partners { OnOk result (self.new.partners.items
            ≡ self.old.partners.items ++ option_to_list (option_copied partner.entry)) }
        ensures news { OnOk result (self.new.news.items
            ≡ self.old.news.items ++ option_to_list (fate_of verdict.entry).news) }
    {
        push_row(alloc, &mut self.kept, id, verdict.keep)?;
        push_row(alloc, &mut self.replace, id, verdict.replacement(handheld))?;
        push_archived(alloc, &mut self.archive, id, verdict)?;
        push_row(alloc, &mut self.gone, id, verdict.lost(handheld))?;
        push_id(&mut self.purge, id, verdict.purges(handheld))?;
        push_content(alloc, &mut self.partners, partner)?;
        push_content(alloc, &mut self.news, verdict.news)?;
        Ok(())
    }

    // What becomes of an id goes to the ends of the lists, unless the id came before.
    pub fn decide(
        &mut self,
        alloc: Global,
        action: Action,
        id: RecordId,
        next: u32,
        basis: Basis<'_>,
        handheld: Holding<'_>,
        desktop: Holding<'_>,
    ) -> Result<(), AllocError>
        ensures grows { OnOk result (next ≤ id → GrewUnder self.old self.new id action
            (based_of basis.entry) (held_of handheld.entry) (held_of desktop.entry)) }
        ensures stays { id < next → self.new ≡ self.old }
    {
        if id.number() < next {
            return Ok(());
        }
        let verdict = Verdict::of(action, basis, handheld, desktop);
        let partner = partner_of(action, basis, handheld);
        self.take_up(alloc, id, verdict, handheld, partner)
    }

    // The plan of the database that this is the draft of, with its rows without a base row at their places.
    pub fn finished(self, alloc: Global, slots: &[Option<&Record>]) -> Result<Plan, AllocError>
        ensures { (a : Action) (s : Sides) → IsDraft a s self
            → IfLoose a s (found_in (map option_copied slots.now))
            (IfOk result (λ plan. IsPlan a s plan)) }
    {
        let Draft {
            kept,
            replace,
            archive: mut known,
            gone,
            purge,
            partners,
            mut news,
        } = self;
        let twice = news.len();
        let mut offers = Vec::new(alloc);
        let mut archive = Vec::new(alloc);
        collect_loose(alloc, slots, &mut offers, &mut archive)?;
        offers.append(&mut news)?;
        archive.append(&mut known)?;
        Ok(Plan {
            kept,
            replace,
            archive,
            gone,
            adds: leave_unpaired(alloc, &partners, &offers)?,
            purge,
            twice,
        })
    }
}
