// The archive of a database.
ghost use Rattle.std.specs.Prelude.{◌≡◌, ◌++◌, [], IfOk, OnOk};
ghost use Rattle.record_merge.specs.Merging.{one_copy_behind, settled_record};
ghost use Rattle.conduit_rules.specs.Contents.{same_content};
ghost use Rattle.session_plan.specs.Archives as archives;

use pdb_values::{Content, Record, RecordId};
use std::alloc::{AllocError, Global};
use std::collections::HashSet;

// Whether two contents are equal.
#[tactic(auto, unfolding(conduit_rules::specs::Contents::same_content))]
pub(crate) fn is_same(one: &Content, other: &Content) -> bool
    ensures { result ≡ same_content one.now other.now }
{
    one.category() == other.category()
        && one.secret() == other.secret()
        && one.bytes() == other.bytes()
}

// What tells the entries of an archive apart.
#[derive(Clone, Copy, PartialEq, Eq, Hash, Drop)]
struct EntryKey<'e> {
    id: u32,
    category: u8,
    secret: bool,
    bytes: &'e [u8],
}

// The key of an entry.
fn key_of<'e>(id: RecordId, content: &'e Content) -> EntryKey<'e>
    ensures { archives.entry_at result ≡ (id, content.now) }
{
    EntryKey {
        id: id.number(),
        category: content.category().number(),
        secret: content.secret(),
        bytes: content.bytes(),
    }
}

/// A live and clean record of an id and a content.
pub fn settled(id: RecordId, content: Content) -> Record
    ensures { result ≡ settled_record (id, content) }
{
    Record {
        id,
        deleted: false,
        dirty: false,
        busy: false,
        content,
    }
}

// The same, with a copy of the content.
fn settled_copy(alloc: Global, id: RecordId, content: &Content) -> Result<Record, AllocError>
    ensures { IfOk result (λ made. made ≡ settled_record (id, content.now)) }
{
    Ok(settled(id, content.copy(alloc)?))
}

// Puts an entry behind the others, unless it is there.
fn put_entry<'e>(
    alloc: Global,
    archive: &mut Vec<Record>,
    seen: &mut HashSet<EntryKey<'e>>,
    id: RecordId,
    content: &'e Content,
) -> Result<(), AllocError>
    requires { archives.Notes seen.old archive.old.items }
    ensures notes { OnOk result (archives.Notes seen.new archive.new.items) }
    ensures entry { OnOk result (archive.new.items
        ≡ archives.with_entry (id, content.now) archive.old.items) }
{
    if seen.insert(key_of(id, content))? {
        archive.push(settled_copy(alloc, id, content)?)?;
    }
    Ok(())
}

// Puts the entries of an archive behind others.
fn put_old<'e>(
    alloc: Global,
    archive: &mut Vec<Record>,
    seen: &mut HashSet<EntryKey<'e>>,
    old: &'e [Record],
) -> Result<(), AllocError>
    requires { archives.Notes seen.old archive.old.items }
    ensures notes { OnOk result (archives.Notes seen.new archive.new.items) }
    ensures entries { OnOk result (archive.new.items
        ≡ archives.with_entries (archives.entries_of old.now) archive.old.items) }
{
    for entry in old {
        put_entry(alloc, archive, seen, entry.id, &entry.content)?;
    }
    Ok(())
}

// Puts new entries behind others.
fn put_new<'e>(
    alloc: Global,
    archive: &mut Vec<Record>,
    seen: &mut HashSet<EntryKey<'e>>,
    new: &'e [(RecordId, Content)],
) -> Result<(), AllocError>
    requires { archives.Notes seen.old archive.old.items }
    ensures { OnOk result (archive.new.items
        ≡ archives.with_entries new.now archive.old.items) }
{
    for entry in new {
        put_entry(alloc, archive, seen, entry.0, &entry.1)?;
    }
    Ok(())
}

/// An archive once it gets new entries: the old ones, then the new ones, one copy of each.
#[tactic(auto, using(crate::proofs::ArchiveLaws::one_copy_of_each))]
pub fn merged_archive(
    alloc: Global,
    old: &[Record],
    new: &[(RecordId, Content)],
) -> Result<Vec<Record>, AllocError>
    ensures { IfOk result (λ merged. merged.items ≡ archives.archive_records
        (one_copy_behind [] (archives.entries_of old.now ++ new.now))) }
{
    let mut archive = Vec::new(alloc);
    let mut seen = HashSet::new(alloc);
    put_old(alloc, &mut archive, &mut seen, old)?;
    put_new(alloc, &mut archive, &mut seen, new)?;
    Ok(archive)
}
