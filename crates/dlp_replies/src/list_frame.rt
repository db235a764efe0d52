// Replies with a list, put into messages.
ghost use Rattle.std.specs.Prelude.{ℕ, ◌≡◌, ◌≤◌, ◌+◌, ◌++◌, length};
ghost use Rattle.dlp_replies.specs.EntryLists.{entries_text, entry_text, entry_front, entry_back};
ghost use Rattle.dlp_replies.specs.Frames.{With, frame_text};
ghost use Rattle.dlp_replies.specs.IdLists.{ids_text};
ghost use Rattle.dlp_replies.specs.Layouts.{db_list, id_list};

use crate::entries::Entries;
use crate::ids::Ids;
use dlp_args::{Message, append, append_header};
use pdb_values::DbHead;

// Databases.
pub(crate) fn put_db_list(out: &mut Message, last: u16, flags: u8, entries: &Entries<'_>)
    requires { length (frame_text (With 0x16 db_list (
      last,
      (flags, (length entries.now, (entries_text entries.now, tt))),
    ))) ≤ 65535 }
    ensures { out.new ≡ frame_text (With 0x16 db_list (
      last,
      (flags, (length entries.now, (entries_text entries.now, tt))),
    )) }
{
    let last = last.to_be_bytes();
    out.clear();
    append(out, &[0x96, 1, 0, 0]);
    append_header(out, 0x20, 4 + entries_len(entries));
    append(out, &[last[0], last[1], flags, entries.len() as u8]);
    append_entries(out, entries);
}

// The length of what is written of the entries.
fn entries_len(entries: &Entries<'_>) -> usize
    ensures { result ≡ length (entries_text entries.now) }
{
    let mut len = 0;
    for place in 0..entries.len() {
        if let Some((_, head)) = entries.get(place) {
            len += entry_len(&head);
        }
    }
    len
}

// The length of what is written of an entry.
fn entry_len(head: &DbHead) -> usize
    ensures len { (index : ℕ) → result ≡ length (entry_text (index, head.now)) }
    ensures small { result ≤ 76 }
{
    37 + code_len(&head.kind.0) + code_len(&head.creator.0) + head.name.as_bytes().len()
}

// A code has four bytes.
fn code_len(code: &[u8; 4]) -> usize
    ensures len { result ≡ length code.now }
    ensures four { result ≡ 4 }
{
    code.len()
}

fn append_entries(out: &mut Message, entries: &Entries<'_>)
    requires { length out.old + length (entries_text entries.now) ≤ 65535 }
    ensures { out.new ≡ out.old ++ entries_text entries.now }
{
    for place in 0..entries.len() {
        if let Some((index, head)) = entries.get(place) {
            append_entry(out, index, &head);
        }
    }
}

#[tactic(auto, using(std::proofs::Common::append_assoc))]
fn append_entry(out: &mut Message, index: u16, head: &DbHead)
    requires { length out.old + length (entry_text (index, head.now)) ≤ 65535 }
    ensures { out.new ≡ out.old ++ entry_text (index, head.now) }
{
    append_front(out, head);
    append_back(out, index, head);
}

// What stands before the dates.
#[tactic(auto, using(std::proofs::Common::append_assoc))]
fn append_front(out: &mut Message, head: &DbHead)
    requires { length out.old + length (entry_front head.now) ≤ 65535 }
    ensures { out.new ≡ out.old ++ entry_front head.now }
{
    append(out, &[45 + head.name.as_bytes().len() as u8, 0]);
    append(out, &head.attributes.to_be_bytes());
    append(out, &head.kind.0);
    append(out, &head.creator.0);
    append(out, &head.version.to_be_bytes());
    append(out, &head.modnum.to_be_bytes());
}

// The dates and what stands behind them.
#[tactic(auto, using(std::proofs::Common::append_assoc))]
fn append_back(out: &mut Message, index: u16, head: &DbHead)
    requires { length out.old + length (entry_back index head.now) ≤ 65535 }
    ensures { out.new ≡ out.old ++ entry_back index head.now }
{
    append(out, &head.created.to_wire());
    append(out, &head.modified.to_wire());
    append(out, &head.backup.to_wire());
    append(out, &index.to_be_bytes());
    append(out, head.name.as_bytes());
    append(out, &[0]);
}

// The ids of records.
#[tactic(auto, using(std::proofs::Common::append_assoc, crate::proofs::IdLaws::ids_text_len))]
pub(crate) fn put_id_list(out: &mut Message, ids: &Ids<'_>)
    requires { length (frame_text (With 0x31 id_list (length ids.now, (ids_text ids.now, tt))))
        ≤ 65535 }
    ensures { out.new ≡ frame_text (With 0x31 id_list (length ids.now, (ids_text ids.now, tt))) }
{
    let count = ids.len();
    out.clear();
    append(out, &[0xB1, 1, 0, 0]);
    append_header(out, 0x20, 2 + 4 * count);
    append(out, &(count as u16).to_be_bytes());
    append_ids(out, ids);
}

fn append_ids(out: &mut Message, ids: &Ids<'_>)
    requires { length out.old + length (ids_text ids.now) ≤ 65535 }
    ensures { out.new ≡ out.old ++ ids_text ids.now }
{
    for place in 0..ids.len() {
        if let Some(id) = ids.get(place) {
            append(out, &id.number().to_be_bytes());
        }
    }
}
