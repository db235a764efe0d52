// What the argument of a reply about the user holds.
ghost use Rattle.std.specs.Prelude.{◌≡◌, ◌<◌, ◌^◌, ◌∷◌, []};
ghost use Rattle.std.specs.Option.{option_map};
ghost use Rattle.pdb_values.specs.PalmDates.{read_wire};
ghost use Rattle.dlp_args.specs.Views.{Gives};
ghost use Rattle.dlp_replies.specs.Faults.{or_value};
ghost use Rattle.dlp_replies.specs.Checks as checks;
ghost use Rattle.dlp_replies.specs.Layouts as layouts;
ghost use Rattle.dlp_replies.specs.ReplyReading.{made_in, reply_by};
ghost use Rattle.dlp_replies.specs.Shapes.{shape, user_said};
ghost use Rattle.dlp_replies.specs.ReplyValues as values;
ghost use Rattle.dlp_replies.specs.Views.{reply_value};

use crate::argument::only_content;
use crate::fault::ReplyFault;
use crate::reply::Reply;
use dlp_args::{Args, Function, names_of, short_text_of, take_8, take_u32};
use pdb_values::PalmDate;

// What the handheld knows of its user.
#[tactic(auto, unfolding(crate::specs::ReplyReading::reply_by))]
pub(crate) fn user_info<'a>(end: usize, args: &Args<'a>) -> Result<Reply<'a>, ReplyFault>
    requires { end < 2 ^ 63 }
    ensures { Gives reply_value result (reply_by (shape Function.ReadUserInfo) end args.now) }
{
    let content = only_content(args)?;
    user_info_reply(end.saturating_sub(content.len()), content)
}

#[tactic(auto, unfolding(crate::specs::ReplyReading::valid_in))]
fn user_info_reply(place: usize, content: &[u8]) -> Result<Reply<'_>, ReplyFault>
    requires { place < 2 ^ 63 }
    ensures { Gives reply_value result
        (made_in layouts.user_info checks.user_sizes checks.user_checks user_said place
        content.now) }
{
    let (user, rest) = take_u32(content).ok_or(ReplyFault::Size)?;
    let (viewer, rest) = take_u32(rest).ok_or(ReplyFault::Size)?;
    let (pc, rest) = take_u32(rest).ok_or(ReplyFault::Size)?;
    let (good, rest) = take_8(rest).ok_or(ReplyFault::Size)?;
    let (last, rest) = take_8(rest).ok_or(ReplyFault::Size)?;
    let Some((name, password)) = names_of(rest) else {
        return Err(ReplyFault::Size);
    };
    let name = user_name_of(name).ok_or(ReplyFault::Size)?;
    if password.len() > 40 {
        return Err(ReplyFault::Size);
    }
    let good = date_of(good, place + 12)?;
    let last = date_of(last, place + 20)?;
    Ok(Reply::ReadUserInfo {
        user,
        viewer,
        pc,
        good,
        last,
        name,
        password,
    })
}

// A name of at most 40 bytes with its zero, or no byte.
#[tactic(auto, unfolding(crate::specs::Checks::user_name))]
fn user_name_of(bytes: &[u8]) -> Option<&[u8]>
    ensures { option_map (λ name. name.now) result ≡ checks.user_name bytes.now }
{
    match bytes {
        [] => Some(bytes),
        [_, ..] => short_text_of(40, bytes),
    }
}

// A date, which stands at this place.
fn date_of(bytes: [u8; 8], place: usize) -> Result<PalmDate, ReplyFault>
    ensures { Gives (λ date. date) result (or_value place (checks.first_bad ((
      0,
      checks.is_date bytes,
    ) ∷ [])) (checks.date_or_zero (read_wire bytes))) }
{
    match PalmDate::from_wire(bytes) {
        Ok(date) => Ok(date),
        Err(_) => Err(ReplyFault::Value(place)),
    }
}
