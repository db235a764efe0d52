// The merge of one database.
ghost use Rattle.std.specs.Prelude.{◌≡◌, ◌<◌, Err, IfErr, IfOk, false, true};
ghost use Rattle.std.specs.Option.{option_map};
ghost use Rattle.pdb_values.specs.Heads.{holds_resources};
ghost use Rattle.handheld_files.specs.Settled.{are_settled, as_opened};
ghost use Rattle.session_plan.specs.Skips.{head_of, passes};
ghost use Rattle.session_plan.specs.Tasks.{records_of};
ghost use Rattle.database_merge.specs.Carrying.{IsCarriedOn, carry_peak};
ghost use Rattle.database_merge.specs.Faults.{Refuses};
ghost use Rattle.database_merge.specs.Merges.{IsMerged};
ghost use Rattle.database_merge.specs.Seeing.{AreOpened, opened as opened_sides};

use crate::both_sides::BothSides;
use crate::fault::{MergeFault, WriteFault};
use crate::finishing::{finish, is_large, new_on_handheld};
use crate::planning::{plan_in, skip_in};
use crate::wishes::MergeWishes;
use conduit_rules::Plan;
use handheld_files::settle;
use pdb_values::{Database, PalmDate};
use session_plan::rows_head;
use std::alloc::{AllocError, Global};

/// What a session with these wishes leaves of a database, where it doesn't skip it and no side passes a limit. The
/// handheld's records are taken as its store opens them: each with an id of its own.
pub fn merge_database(
    alloc: Global,
    both: BothSides,
    wishes: &MergeWishes,
) -> Result<BothSides, MergeFault>
    ensures merged { IfOk result (IsMerged (opened_sides both) wishes.now) }
    ensures refused { IfErr result (Refuses (opened_sides both) wishes.now) }
{
    let BothSides {
        handheld,
        rows,
        base,
        archive,
    } = both;
    let handheld = opened(alloc, handheld)?;
    let both = BothSides {
        handheld,
        rows,
        base,
        archive,
    };
    merge_opened(alloc, both, wishes)
}

// The handheld's database as its store opens it.
fn opened(alloc: Global, handheld: Option<Database>) -> Result<Option<Database>, AllocError>
    ensures opened { IfOk result (λ made. made ≡ option_map as_opened handheld) }
    ensures settled { IfOk result (λ made. are_settled (records_of made) ≡ true) }
{
    match handheld {
        Some(database) => {
            let mut database = database;
            settle(alloc, &mut database)?;
            Ok(Some(database))
        }
        None => Ok(None),
    }
}

// The same for a handheld's database that a store opened.
fn merge_opened(
    alloc: Global,
    both: BothSides,
    wishes: &MergeWishes,
) -> Result<BothSides, MergeFault>
    requires { AreOpened both }
    ensures merged { IfOk result (IsMerged both wishes.now) }
    ensures refused { IfErr result (Refuses both wishes.now) }
{
    if let Some(skip) = skip_in(&both, wishes.action) {
        return Err(MergeFault::Skipped(skip));
    }
    let plan = plan_in(alloc, &both, wishes)?;
    if is_large(alloc, &plan, both.archive.as_ref())? {
        return Err(MergeFault::Full);
    }
    match carry(alloc, both, wishes.date, &plan) {
        Ok(after) => Ok(after),
        Err(WriteFault::Full) => Err(MergeFault::Full),
        Err(WriteFault::NoMemory) => Err(MergeFault::NoMemory),
    }
}

// Carries out the plan of a database that isn't skipped, and whose desktop's part is within the limits.
fn carry(
    alloc: Global,
    both: BothSides,
    date: PalmDate,
    plan: &Plan,
) -> Result<BothSides, WriteFault>
    requires handheld { passes holds_resources (head_of both.handheld) ≡ false }
    requires rows { passes holds_resources (head_of both.rows) ≡ false }
    ensures carried { IfOk result (IsCarriedOn both date plan.now) }
    ensures full { result ≡ Err WriteFault.Full → 65535 < carry_peak both plan.now }
{
    let BothSides {
        handheld,
        rows,
        base,
        archive,
    } = both;
    match (handheld, rows) {
        (Some(handheld), Some(rows)) => finish(alloc, handheld, &rows, archive, plan),
        (Some(handheld), None) => {
            let rows = Database::new(alloc, rows_head(date, handheld.head()));
            finish(alloc, handheld, &rows, archive, plan)
        }
        (None, Some(rows)) => {
            let handheld = new_on_handheld(alloc, &rows)?;
            finish(alloc, handheld, &rows, archive, plan)
        }
        (None, None) => Ok(BothSides {
            handheld: None,
            rows: None,
            base,
            archive,
        }),
    }
}
