// Lists of contents, with and without ids.
ghost use Rattle.std.specs.Prelude.{◌≡◌, ◌++◌, ◌∷◌, [], if◌then◌else◌, map, OnOk, option_to_list};
ghost use Rattle.std.specs.Option.{option_copied};
ghost use Rattle.conduit_rules.specs.Borrowed.{fate_of};
ghost use Rattle.conduit_rules.specs.ById.{with_id};

use crate::verdict::Verdict;
use pdb_values::{Content, RecordId};
use std::alloc::{AllocError, Global};

// Appends a copy of a content with its id, where there is one.
pub fn push_row(
    alloc: Global,
    rows: &mut Vec<(RecordId, Content)>,
    id: RecordId,
    content: Option<&Content>,
) -> Result<(), AllocError>
    ensures { OnOk result (rows.new.items ≡ rows.old.items
        ++ with_id id (option_copied content.entry)) }
{
    if let Some(content) = content {
        rows.push((id, content.copy(alloc)?))?;
    }
    Ok(())
}

// Appends a copy of a content, where there is one.
pub fn push_content(
    alloc: Global,
    contents: &mut Vec<Content>,
    content: Option<&Content>,
) -> Result<(), AllocError>
    ensures { OnOk result (contents.new.items ≡ contents.old.items
        ++ option_to_list (option_copied content.entry)) }
{
    if let Some(content) = content {
        contents.push(content.copy(alloc)?)?;
    }
    Ok(())
}

// Appends the contents that are archived under an id, in their order.
pub fn push_archived(
    alloc: Global,
    rows: &mut Vec<(RecordId, Content)>,
    id: RecordId,
    verdict: Verdict<'_>,
) -> Result<(), AllocError>
    ensures { OnOk result (rows.new.items ≡ rows.old.items
        ++ map (λ c. (id, c)) (fate_of verdict.entry).archive) }
{
    push_row(alloc, rows, id, verdict.archive)?;
    push_row(alloc, rows, id, verdict.archive_too)?;
    Ok(())
}

// Appends an id, where it is to be appended.
pub fn push_id(ids: &mut Vec<RecordId>, id: RecordId, appends: bool) -> Result<(), AllocError>
    ensures { OnOk result (ids.new.items ≡ ids.old.items ++ (if appends then id ∷ [] else [])) }
{
    if appends {
        ids.push(id)?;
    }
    Ok(())
}
