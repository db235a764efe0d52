// Replies of handhelds of another make, written again as our own handheld writes them.
ghost use Rattle.std.specs.Prelude.{◌≡◌, ◌+◌, ◌≤◌, ◌∷◌, [], IfSome, length};
ghost use Rattle.std.specs.Option.{option_map};
ghost use Rattle.port_link.specs.Mended as mended;

use crate::mended_list::put_list;
use crate::mended_parts::{byte_in, from, front_of, half_in};
use crate::mended_user::put_user;
use dlp_args::{append, write_arg};
use dlp_commands::{Message, read_reply};

/// Writes the reply to a function again where it is none as it stands: what nobody needs is left out, and a date that is none is no
/// date. The spare message may have anything in it then.
pub(crate) fn mend(function: u8, reply: &mut Message, spare: &mut Message)
    ensures { reply.new ≡ mended.heard function reply.old }
{
    if read_reply(function, reply.bytes()).is_ok() {
        return;
    }
    let bytes = reply.bytes();
    if bytes.len() < 4 {
        return;
    }
    let first = byte_in(bytes, 0);
    if !is_full(function, bytes) {
        let alone = [first, 0, byte_in(bytes, 2), byte_in(bytes, 3)];
        reply.clear();
        reply.push(&alone);
        return;
    }
    let Some(content) = first_content(from(bytes, 4)) else {
        return;
    };
    put_content(function, content, spare);
    put_reply(first, spare.bytes(), reply);
}

// A reply that has this content.
fn put_reply(first: u8, content: &[u8], out: &mut Message)
    requires { length content.now + 8 ≤ 65535 }
    ensures { out.new ≡ mended.with_content first (Some content.now) [] }
{
    out.clear();
    append(out, &[first, 1, 0, 0]);
    write_arg(out, 0x20, content);
}

// Whether a reply has a content, and tells no error.
fn is_full(function: u8, bytes: &[u8]) -> bool
    ensures { result ≡ mended.is_full function bytes.now }
{
    has_content(function)
        && byte_in(bytes, 1) != 0
        && byte_in(bytes, 2) == 0
        && byte_in(bytes, 3) == 0
}

// Whether the replies of a function have a content.
fn has_content(function: u8) -> bool
    ensures { result ≡ mended.has_content function }
{
    matches!(
        function,
        0x10 | 0x12 | 0x16 | 0x17 | 0x18 | 0x1B | 0x1D | 0x1F | 0x20 | 0x21 | 0x23 | 0x2B | 0x31
    )
}

// The content of a first argument under the id of replies.
fn first_content(bytes: &[u8]) -> Option<&[u8]>
    requires { length bytes.now + 4 ≤ 65535 }
    ensures content { option_map (λ content. content.now) result ≡ mended.first_content bytes.now }
    ensures short { IfSome result (λ content. length content.now + 8 ≤ 65535) }
{
    let [first, second, bytes @ ..] = bytes else {
        return None;
    };
    match *first {
        0x20 => Some(front_of(bytes, usize::from(*second))),
        0xA0 => Some(front_of(bytes.get(2..).unwrap_or(&[]), half_in(bytes))),
        _ => None,
    }
}

// How many bytes of a content are needed.
fn needed(function: u8, content: &[u8]) -> usize
    ensures { result ≡ mended.needed function content.now }
{
    match function {
        0x17 | 0x18 => 1,
        0x2B => 2,
        0x21 => 4,
        0x1B | 0x1D => 2 + half_in(content),
        0x31 => 2 + 4 * half_in(content),
        _ => content.len(),
    }
}

// The content of a function's reply.
fn put_content(function: u8, content: &[u8], out: &mut Message)
    requires { length content.now + 8 ≤ 65535 }
    ensures content { out.new ≡ mended.content_again function content.now }
    ensures short { length out.new + 8 ≤ 65535 }
{
    out.clear();
    match function {
        0x10 => put_user(content, out),
        0x16 => put_list(content, out),
        _ => append(out, front_of(content, needed(function, content))),
    }
}
