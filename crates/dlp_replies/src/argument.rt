// The one argument of a reply, or none.
ghost use Rattle.std.specs.Prelude.{◌≡◌};
ghost use Rattle.dlp_args.specs.Views.{Gives};
ghost use Rattle.dlp_replies.specs.Faults.{or_argument};
ghost use Rattle.dlp_replies.specs.ReplyReading as reading;
ghost use Rattle.dlp_replies.specs.Views.{reply_value};

use crate::fault::ReplyFault;
use crate::reply::Reply;
use dlp_args::Args;

// What the one argument has.
pub(crate) fn only_content<'a>(args: &Args<'a>) -> Result<&'a [u8], ReplyFault>
    ensures { Gives (λ content. content.now) result (or_argument (reading.only_content args.now)) }
{
    let mut iter = args.iter();
    match (iter.next(), iter.next()) {
        (Some(arg), None) if arg.id == 0x20 => Ok(arg.bytes),
        _ => Err(ReplyFault::Argument),
    }
}

pub(crate) fn no_arguments(args: &Args<'_>) -> Result<(), ReplyFault>
    ensures { result ≡ reading.no_arguments args.now }
{
    match args.iter().next() {
        None => Ok(()),
        Some(_) => Err(ReplyFault::Argument),
    }
}

// A reply that has no argument.
pub(crate) fn without<'a>(args: &Args<'a>, reply: Reply<'a>) -> Result<Reply<'a>, ReplyFault>
    ensures { Gives reply_value result (reading.without (reply_value reply.entry) args.now) }
{
    match args.iter().next() {
        None => Ok(reply),
        Some(_) => Err(ReplyFault::Argument),
    }
}
