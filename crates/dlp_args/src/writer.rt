// Writing an argument.
ghost use Rattle.std.specs.Prelude.{◌≡◌, ◌+◌, ◌≤◌, ◌<◌, ◌++◌, ◌↔◌, true, false, length, IsTrue};
ghost use Rattle.dlp_args.specs.Arguments.{arg_text};

use crate::message::Message;

/// Appends an argument, tiny below 255 bytes and else short, and answers whether it fits. Where it doesn't, the message
/// stays as it is.
pub fn write_arg(message: &mut Message, id: u8, bytes: &[u8]) -> bool
    requires low { 0x20 ≤ id }
    requires high { id < 0x40 }
    ensures fits { IsTrue result
        ↔ (length message.old + length (arg_text (record { id = id; bytes = bytes.now })) ≤ 65535) }
    ensures written { result ≡ true
        → message.new ≡ message.old ++ arg_text (record { id = id; bytes = bytes.now }) }
    ensures stays { result ≡ false → message.new ≡ message.old }
{
    let size = bytes.len();
    let room = Message::LIMIT - message.bytes().len();
    if size < 255 {
        if room < 2 + size {
            return false;
        }
        message.push(&[id, size as u8]);
    } else {
        if room < 4 || room - 4 < size {
            return false;
        }
        message.push(&[id + 0x80, 0]);
        message.push(&(size as u16).to_be_bytes());
    }
    message.push(bytes)
}
