// Replies about resources.
ghost use Rattle.std.specs.Prelude.{◌<◌, ◌^◌, [], true};
ghost use Rattle.dlp_args.specs.Views.{Gives};
ghost use Rattle.dlp_replies.specs.ReplyValues as values;
ghost use Rattle.dlp_replies.specs.Layouts as layouts;
ghost use Rattle.dlp_replies.specs.ReplyReading.{reply_by, made_in};
ghost use Rattle.dlp_replies.specs.Shapes.{shape, resource_said};
ghost use Rattle.dlp_replies.specs.Views.{reply_value};

use crate::argument::only_content;
use crate::fault::ReplyFault;
use crate::reply::Reply;
use dlp_args::{Args, Function, rest_of};
use pdb_values::FourCc;

// A resource.
#[tactic(auto, unfolding(crate::specs::ReplyReading::reply_by))]
pub(crate) fn resource<'a>(end: usize, args: &Args<'a>) -> Result<Reply<'a>, ReplyFault>
    requires { end < 2 ^ 63 }
    ensures { Gives reply_value result (reply_by (shape Function.ReadResource) end args.now) }
{
    let content = only_content(args)?;
    resource_reply(end.saturating_sub(content.len()), content)
}

#[tactic(auto, unfolding(crate::specs::ReplyReading::valid_in, dlp_args::specs::CellReading::number_at, dlp_args::specs::CellReading::some_at))]
fn resource_reply(place: usize, content: &[u8]) -> Result<Reply<'_>, ReplyFault>
    ensures { Gives reply_value result
        (made_in layouts.resource_reply (λ v. true) (λ v. []) resource_said place content.now) }
{
    let [k3, k2, k1, k0, i1, i0, x1, x0, s1, s0, rest @ ..] = content else {
        return Err(ReplyFault::Size);
    };
    let bytes = rest_of(rest).ok_or(ReplyFault::Size)?;
    Ok(Reply::ReadResource {
        kind: FourCc([*k3, *k2, *k1, *k0]),
        id: u16::from_be_bytes([*i1, *i0]),
        index: u16::from_be_bytes([*x1, *x0]),
        size: u16::from_be_bytes([*s1, *s0]),
        bytes,
    })
}
