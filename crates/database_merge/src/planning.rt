// What is planned for a database.
ghost use Rattle.std.specs.Prelude.{◌≡◌, IfOk, is_some};
ghost use Rattle.std.specs.Option.{option_copied};
ghost use Rattle.conduit_rules.specs.Plans.{IsPlan};
ghost use Rattle.record_merge.specs.Merging.{AreBounded};
ghost use Rattle.session_plan.specs.Choosing.{base_rows_by};
ghost use Rattle.session_plan.specs.Skips.{head_of as head_in};
ghost use Rattle.session_plan.specs.Tasks.{records_of};
ghost use Rattle.database_merge.specs.Seeing.{sides, skip_of as skip_by};

use crate::both_sides::BothSides;
use crate::seeing::{records_in, slow_view};
use crate::wishes::MergeWishes;
use conduit_rules::{Action, Plan, plan};
use pdb_values::{Database, DbHead, Record};
use session_parts::Skip;
use session_plan::skip_of;
use std::alloc::{AllocError, Global};

// The head of a database, where there is one.
fn head_of(database: Option<&Database>) -> Option<&DbHead>
    ensures { option_copied result ≡ head_in (option_copied database.entry) }
{
    match database {
        Some(database) => Some(database.head()),
        None => None,
    }
}

/// Why a session skips a database, if it does.
pub(crate) fn skip_in(both: &BothSides, action: Action) -> Option<Skip>
    ensures { result ≡ skip_by both.now action }
{
    skip_of(
        Some(action),
        head_of(both.handheld.as_ref()),
        head_of(both.rows.as_ref()),
        both.base.is_some(),
    )
}

// The base rows: none where the rows are missing.
fn base_records<'d>(rows: Option<&'d Database>, base: Option<&'d Database>) -> &'d [Record]
    ensures { result.now ≡ base_rows_by (option_copied rows.entry) (option_copied base.entry) }
{
    match rows {
        Some(_) => records_in(base),
        None => &[],
    }
}

/// What is planned for a database.
#[tactic(auto, unfolding(crate::specs::Seeing::sides))]
pub(crate) fn plan_in(
    alloc: Global,
    both: &BothSides,
    wishes: &MergeWishes,
) -> Result<Plan, AllocError>
    ensures plan { IfOk result (λ plan.
        IsPlan wishes.now.action (sides both.now wishes.now) plan) }
    ensures bounded { IfOk result (λ plan. AreBounded (records_of both.now.handheld)) }
{
    let view = slow_view(alloc, records_in(both.handheld.as_ref()))?;
    plan(
        alloc,
        &view,
        records_in(both.rows.as_ref()),
        base_records(both.rows.as_ref(), both.base.as_ref()),
        !wishes.agree,
        wishes.action,
    )
}
