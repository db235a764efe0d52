// What a handheld knows of its user, written again.
ghost use Rattle.std.specs.Prelude.{◌≡◌, ◌+◌, ◌≤◌, ◌++◌, [], length};
ghost use Rattle.dlp_replies.specs.Frames.{name_text};
ghost use Rattle.port_link.specs.Mended as mended;

use crate::mended_parts::{byte_in, from, front_of, put_date, put_part, until_zero};
use dlp_args::append;
use dlp_commands::Message;

// The numbers, the dates and the names.
#[tactic(auto, using(std::proofs::Common::append_assoc))]
pub(crate) fn put_user(content: &[u8], out: &mut Message)
    requires { out.old ≡ [] }
    ensures user { out.new ≡ mended.user_again content.now }
    ensures short { length out.new + 8 ≤ 65535 }
{
    put_part(content, 0, 12, out);
    put_date(content, 12, out);
    put_date(content, 20, out);
    put_names(
        byte_in(content, 28),
        byte_in(content, 29),
        from(content, 30),
        out,
    );
}

// The name and the password behind their lengths.
#[tactic(auto, using(std::proofs::Common::append_assoc))]
fn put_names(name: u8, password: u8, bytes: &[u8], out: &mut Message)
    requires { length out.old + 300 ≤ 65535 }
    ensures names { out.new ≡ out.old ++ mended.names_again name password bytes.now }
    ensures short { length out.new ≤ length out.old + 299 }
{
    let text = until_zero(front_of(front_of(bytes, usize::from(name)), 41));
    append(out, &[named_len(text) as u8, password]);
    append(out, text);
    if !text.is_empty() {
        append(out, &[0]);
    }
    put_part(bytes, usize::from(name), usize::from(password), out);
}

// The length of a name and its zero; an empty name has none.
fn named_len(name: &[u8]) -> usize
    requires { length name.now ≤ 41 }
    ensures len { result ≡ length (name_text name.now) }
    ensures small { result ≤ 42 }
{
    match name {
        [] => 0,
        [_, ..] => name.len() + 1,
    }
}
