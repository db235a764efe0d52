// The reply about what the handheld is.
ghost use Rattle.std.specs.Prelude.{◌<◌, ◌^◌};
ghost use Rattle.dlp_args.specs.Views.{Gives};
ghost use Rattle.dlp_replies.specs.ReplyReading.{reply_by};
ghost use Rattle.dlp_replies.specs.Shapes.{shape};
ghost use Rattle.dlp_replies.specs.Views.{reply_value};

use crate::argument::only_content;
use crate::fault::ReplyFault;
use crate::reply::Reply;
use dlp_args::{Args, Function};

// The version of the ROM, the locale, and the product's id.
#[tactic(auto, unfolding(crate::specs::ReplyReading::reply_by, crate::specs::ReplyReading::valid_in, dlp_args::specs::CellReading::number_at, dlp_args::specs::CellReading::some_at))]
pub(crate) fn sys_info<'a>(end: usize, args: &Args<'a>) -> Result<Reply<'a>, ReplyFault>
    requires { end < 2 ^ 63 }
    ensures { Gives reply_value result (reply_by (shape Function.ReadSysInfo) end args.now) }
{
    let content = only_content(args)?;
    let [r3, r2, r1, r0, l3, l2, l1, l0, _, size, product @ ..] = content else {
        return Err(ReplyFault::Size);
    };
    if usize::from(*size) != product.len() {
        return Err(ReplyFault::Size);
    }
    Ok(Reply::ReadSysInfo {
        rom: u32::from_be_bytes([*r3, *r2, *r1, *r0]),
        locale: u32::from_be_bytes([*l3, *l2, *l1, *l0]),
        product,
    })
}
