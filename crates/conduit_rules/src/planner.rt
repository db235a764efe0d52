// The plan of one database.
ghost use Rattle.std.specs.Prelude.{◌≡◌, ◌≤◌, ◌<◌, ◌+◌, ◌*◌, IfOk, length};
ghost use Rattle.conduit_rules.specs.Choices.{sides_of};
ghost use Rattle.conduit_rules.specs.Fronts.{seen_id, record_id};
ghost use Rattle.conduit_rules.specs.Plans.{IsPlan};
ghost use Rattle.conduit_rules.specs.Runs.{IsFresh};

use crate::action::Action;
use crate::basis::{Basis, is_loose};
use crate::draft::Draft;
use crate::front::Front;
use crate::holding::Holding;
use crate::loose::{counted, empty_slots, note_row};
use crate::planned::Plan;
use crate::run::Run;
use crate::steps::Steps;
use crate::view::{Seen, View};
use pdb_values::Record;
use std::alloc::{AllocError, Global};
use std::marker::Brand;
use std::sync::ledger::{Blank, Ledger};

/// The plan for a handheld's view, the desktop's rows and the base rows of the last synchronisation, by an action.
///
/// With `Sync` the table and the pairing of new records decide, and no change is lost. With `Handheld` the desktop's
/// rows are not looked at: each live record is kept and each archived one archived. With `Desktop` a row of an id
/// that has a base row is kept or archived under that id, other live rows are added, other archived ones archived
/// under id 0, and nothing of the handheld stays besides. With `Both` the base is not looked at: each live record is
/// kept and each archived one archived, and the desktop's rows are paired with the records as new ones are with `Sync`.
///
/// A base row with the delete bit is a gone row, and is as if it were not there unless `gone_counts`. Base rows of
/// id 0 or of an id that came earlier don't count. Of the desktop's rows with one id the first is the row of that
/// id, and later ones are new. An unread entry of the view counts as live with the content that it bears.
pub fn plan(
    alloc: Global,
    view: &View,
    rows: &[Record],
    base: &[Record],
    gone_counts: bool,
    action: Action,
) -> Result<Plan, AllocError>
    ensures { IfOk result
        (λ plan. IsPlan action (sides_of view.now.seen.items rows.now base.now gone_counts) plan) }
{
    let view = Run::new(alloc, &view.seen)?;
    let rows = Run::new(alloc, rows)?;
    let base = Run::new(alloc, base)?;
    plan_uncounted::<Brand>(alloc, view, rows, base, gone_counts, action, Blank::new(1))
}

/// The same in one pass over the three lists. Each look at what is in front of one and each move along one is a step,
/// and there are at most `4 * (v + r + b) + 3`, where v, r and b are the lengths of the lists.
pub fn plan_counted<'a, L: Ledger>(
    alloc: Global,
    mut view: Run<'a, Seen>,
    mut rows: Run<'a, Record>,
    mut base: Run<'a, Record>,
    gone_counts: bool,
    action: Action,
    steps: &mut Steps<L>,
) -> Result<Plan, AllocError>
    requires view { IsFresh seen_id view }
    requires rows { IsFresh record_id rows }
    requires base { IsFresh record_id base }
    ensures plan { let sides = sides_of view.entry.list rows.entry.list base.entry.list
        gone_counts in
        IfOk result (λ plan. IsPlan action sides plan) }
    ensures bound { let all = length view.entry.list + length rows.entry.list + length
        base.entry.list in
        steps.new ≤ steps.old + (4 * all + 3) }
{
    let mut draft = Draft::new(alloc);
    let mut slots = empty_slots(alloc, rows.len())?;
    let mut next = 0;
    while let Some(front) = Front::of(&view, &rows, &base, steps) {
        let Front {
            id,
            seen,
            row,
            base: old,
        } = front;
        let basis = Basis::in_front(id, old, gone_counts);
        let handheld = Holding::seen_in(seen);
        let desktop = Holding::row_in(row);
        draft.decide(alloc, action, id, next, basis, handheld, desktop)?;
        note_row(&mut slots, row, is_loose(action, id, old, next));
        view.pass(seen.is_some(), steps);
        rows.pass(row.is_some(), steps);
        base.pass(old.is_some(), steps);
        next = next.max(id.number() + 1);
    }
    draft.finished(alloc, counted(action, &slots))
}

// The same, with steps that no one looks at.
fn plan_uncounted<'a, L: Ledger>(
    alloc: Global,
    view: Run<'a, Seen>,
    rows: Run<'a, Record>,
    base: Run<'a, Record>,
    gone_counts: bool,
    action: Action,
    blank: Blank,
) -> Result<Plan, AllocError>
    requires view { IsFresh seen_id view }
    requires rows { IsFresh record_id rows }
    requires base { IsFresh record_id base }
    requires name { blank.name ≡ L.name }
    requires parts { blank.parts ≡ L.parts }
    requires some { 0 < blank.parts }
    ensures { let sides = sides_of view.entry.list rows.entry.list base.entry.list gone_counts in
        IfOk result (λ plan. IsPlan action sides plan) }
{
    let mut steps: Steps<L> = Steps::new(blank);
    plan_counted(alloc, view, rows, base, gone_counts, action, &mut steps)
}
