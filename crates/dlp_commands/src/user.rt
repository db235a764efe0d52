// What a handheld knows of its user, as requests read and write it.
ghost use Rattle.std.specs.Prelude.{◌≡◌};
ghost use Rattle.std.specs.Option.{option_map};
ghost use Rattle.dlp_replies.specs.Views.{reply_value};
ghost use Rattle.dlp_replies.specs.Writables.{IsWritable};
ghost use Rattle.dlp_commands.specs.Answers.{Finds};
ghost use Rattle.dlp_commands.specs.UserFunctions as table;

use crate::refusal::Refusal;
use dlp_replies::Reply;
use palm_device::has_bit;
use pdb_values::{PalmDate, UserInfo, UserName};

/// What WriteUserInfo bears: the numbers of the user, the viewer and the desktop, a date on the wire, which of them are to be
/// set, and a name with its length.
#[derive(Clone, Copy)]
pub struct UserMarks<'a> {
    pub user: u32,
    pub viewer: u32,
    pub pc: u32,
    pub date: [u8; 8],
    pub bits: u8,
    pub name_len: u8,
    pub name: Option<&'a [u8]>,
}

/// The reply with what the handheld knows.
#[tactic(auto, using(crate::proofs::Fits::user_fits, crate::proofs::Fits::has_no_zero))]
pub fn user_reply(user: &UserInfo) -> Reply<'_>
    ensures reply { reply_value result ≡ table.user_reply user.now }
    ensures writable { IsWritable (reply_value result) }
{
    Reply::ReadUserInfo {
        user: user.user,
        viewer: user.viewer,
        pc: user.pc,
        good: user.good,
        last: user.last,
        name: user.name.as_bytes(),
        password: user.password.as_bytes(),
    }
}

/// What the handheld knows of its user after this was written, or why it isn't.
pub fn marked(old: &UserInfo, marks: &UserMarks<'_>) -> Result<UserInfo, Refusal>
    ensures { Finds (λ user. user) result
        (table.marked marks.now.user marks.now.viewer marks.now.pc marks.now.date marks.now.bits
        marks.now.name_len (option_map (λ name. name.now) marks.now.name) old.now) }
{
    let Ok(date) = PalmDate::from_wire(marks.date) else {
        return Err(Refusal::Parameter);
    };
    if marks.name_len as usize != name_length(marks.name) {
        return Err(Refusal::Parameter);
    }
    let Some(name) = UserName::new(name_or_empty(marks.name)) else {
        return Err(Refusal::Parameter);
    };
    let bits = marks.bits;
    Ok(UserInfo {
        user: chosen(0x80, bits, marks.user, old.user),
        viewer: chosen(0x08, bits, marks.viewer, old.viewer),
        pc: chosen(0x40, bits, marks.pc, old.pc),
        good: chosen_date(bits, date, old.good),
        last: chosen_date(bits, date, old.last),
        name: chosen_name(bits, name, &old.name),
        password: old.password.copy(),
    })
}

// The length that goes with a name.
fn name_length(name: Option<&[u8]>) -> usize
    ensures { result ≡ table.name_length (option_map (λ name. name.now) name.entry) }
{
    match name {
        Some(name) => name.len() + 1,
        None => 0,
    }
}

// The name, or the empty one.
fn name_or_empty(name: Option<&[u8]>) -> &[u8]
    ensures { result.now ≡ table.name_or_empty (option_map (λ name. name.now) name.entry) }
{
    match name {
        Some(name) => name,
        None => &[],
    }
}

// The new number where the bit is set, else the old one.
fn chosen(bit: u16, bits: u8, new: u32, old: u32) -> u32
    ensures { result ≡ table.chosen bit bits new old }
{
    if has_bit(bit, bits as u16) { new } else { old }
}

// The new date where both dates are to be set, else the old one.
fn chosen_date(bits: u8, new: PalmDate, old: PalmDate) -> PalmDate
    ensures { result ≡ table.chosen 0x20 bits new old }
{
    if has_bit(0x20, bits as u16) { new } else { old }
}

// The new name where the name is to be set, else the old one.
fn chosen_name(bits: u8, new: UserName, old: &UserName) -> UserName
    ensures { result ≡ table.chosen 0x10 bits new old.now }
{
    if has_bit(0x10, bits as u16) {
        new
    } else {
        old.copy()
    }
}
