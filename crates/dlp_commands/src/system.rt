// What a handheld says that it is.
ghost use Rattle.std.specs.Prelude.{◌≡◌};
ghost use Rattle.dlp_replies.specs.Views.{reply_value};
ghost use Rattle.dlp_replies.specs.Writables.{IsWritable};
ghost use Rattle.dlp_commands.specs.UserFunctions as table;

use dlp_replies::Reply;

/// The reply with what every handheld says that it is.
pub fn system_reply<'a>() -> Reply<'a>
    ensures reply { reply_value result ≡ table.system_reply }
    ensures writable { IsWritable (reply_value result) }
{
    Reply::ReadSysInfo {
        rom: 0x0100_3000,
        locale: 0,
        product: &[0, 1, 0, 0],
    }
}
