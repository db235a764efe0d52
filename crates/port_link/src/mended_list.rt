// A list of databases, written again.
ghost use Rattle.std.specs.Prelude.{◌≡◌, ◌+◌, ◌*◌, ◌≤◌, ◌++◌, [], length};
ghost use Rattle.port_link.specs.Mended as mended;

use crate::mended_parts::{byte_in, from, front_of, part_of, put_date, put_part, until_zero};
use dlp_args::append;
use dlp_commands::Message;

// The front and the entries.
pub(crate) fn put_list(content: &[u8], out: &mut Message)
    requires { out.old ≡ [] }
    ensures list { out.new ≡ mended.list_again content.now }
    ensures short { length out.new + 8 ≤ 65535 }
{
    put_part(content, 0, 4, out);
    put_entries(byte_in(content, 3), from(content, 4), out);
}

// So many entries, each as long as its first byte says.
fn put_entries(count: u8, bytes: &[u8], out: &mut Message)
    requires { length out.old + 77 * count ≤ 65535 }
    ensures entries { out.new ≡ out.old ++ mended.entries_again count bytes.now }
    ensures short { length out.new ≤ length out.old + 77 * count }
{
    let mut rest = bytes;
    for _ in 0..count {
        let size = usize::from(byte_in(rest, 0));
        put_entry(front_of(rest, size), out);
        rest = from(rest, size);
    }
}

// An entry; one that lacks more than its name stays as it is.
fn put_entry(entry: &[u8], out: &mut Message)
    requires { length out.old + 77 ≤ 65535 }
    ensures entry { out.new ≡ out.old ++ mended.entry_again entry.now }
    ensures short { length out.new ≤ length out.old + 77 }
{
    if entry.len() < 44 {
        put_part(entry, 0, 44, out);
    } else {
        put_full(entry, out);
    }
}

// An entry that has all but its name.
#[tactic(auto, using(std::proofs::Common::append_assoc))]
fn put_full(entry: &[u8], out: &mut Message)
    requires room { length out.old + 77 ≤ 65535 }
    requires full { 44 ≤ length entry.now }
    ensures entry { out.new ≡ out.old ++ mended.full_entry entry.now }
    ensures short { length out.new ≤ length out.old + 77 }
{
    let name = until_zero(part_of(entry, 44, 32));
    append(out, &[45 + name.len() as u8]);
    put_part(entry, 1, 17, out);
    put_date(entry, 18, out);
    put_date(entry, 26, out);
    put_date(entry, 34, out);
    put_part(entry, 42, 2, out);
    append(out, name);
    append(out, &[0]);
}
