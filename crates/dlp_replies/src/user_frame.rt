// A reply about the user, put into a message.
ghost use Rattle.std.specs.Prelude.{◌≡◌, ◌≤◌, ◌+◌, ◌++◌, length};
ghost use Rattle.dlp_replies.specs.Frames.{reply_text, name_text};
ghost use Rattle.dlp_replies.specs.ReplyValues as values;
ghost use Rattle.dlp_replies.specs.UserTexts.{user_back, user_front};
ghost use Rattle.dlp_replies.specs.Writables.{IsWritable};

use dlp_args::{Message, append, append_header};
use pdb_values::PalmDate;

#[tactic(auto, using(std::proofs::Common::append_assoc))]
pub(crate) fn put_user_info(
    out: &mut Message,
    user: u32,
    viewer: u32,
    pc: u32,
    good: PalmDate,
    last: PalmDate,
    name: &[u8],
    password: &[u8],
)
    requires { IsWritable (values.ReadUserInfo user viewer pc good last name.now password.now) }
    ensures { out.new ≡ reply_text (values.ReadUserInfo user viewer pc good last name.now
        password.now) }
{
    out.clear();
    append(out, &[0x90, 1, 0, 0]);
    append_header(out, 0x20, 30 + named_len(name) + password.len());
    append_front(out, user, viewer, pc, good, last);
    append_back(out, name, password);
}

// The numbers and the dates.
#[tactic(auto, using(std::proofs::Common::append_assoc))]
fn append_front(out: &mut Message, user: u32, viewer: u32, pc: u32, good: PalmDate, last: PalmDate)
    requires { length out.old + 28 ≤ 65535 }
    ensures bytes { out.new ≡ out.old ++ user_front user viewer pc good last }
    ensures len { length (user_front user viewer pc good last) ≡ 28 }
{
    append(out, &user.to_be_bytes());
    append(out, &viewer.to_be_bytes());
    append(out, &pc.to_be_bytes());
    append(out, &good.to_wire());
    append(out, &last.to_wire());
}

// The name and the password.
#[tactic(auto, using(std::proofs::Common::append_assoc))]
fn append_back(out: &mut Message, name: &[u8], password: &[u8])
    requires name { length name.now ≤ 40 }
    requires password { length password.now ≤ 40 }
    requires fits { length out.old + length (user_back name.now password.now) ≤ 65535 }
    ensures { out.new ≡ out.old ++ user_back name.now password.now }
{
    append(out, &[named_len(name) as u8, password.len() as u8]);
    append_name(out, name);
    append(out, password);
}

// The length of what is written of a name.
fn named_len(name: &[u8]) -> usize
    requires { length name.now ≤ 40 }
    ensures len { result ≡ length (name_text name.now) }
    ensures small { result ≤ 41 }
{
    match name {
        [] => 0,
        [_, ..] => name.len() + 1,
    }
}

// A name and its zero; an empty name is no byte.
#[tactic(auto, using(std::proofs::Common::append_assoc))]
fn append_name(out: &mut Message, name: &[u8])
    requires { length out.old + length (name_text name.now) ≤ 65535 }
    ensures { out.new ≡ out.old ++ name_text name.now }
{
    match name {
        [] => {}
        [_, ..] => {
            append(out, name);
            append(out, &[0]);
        }
    }
}
