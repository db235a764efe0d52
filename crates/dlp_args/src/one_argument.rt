// Messages of one argument, put together.
ghost use Rattle.std.specs.Prelude.{◌≡◌, ◌+◌, ◌≤◌, ◌<◌, ◌++◌, ◌∷◌, [], length};
ghost use Rattle.dlp_args.specs.Arguments.{arg_text, header, written_form};

use crate::Message;

/// Appends bytes that fit.
pub fn append(out: &mut Message, bytes: &[u8])
    requires { length out.old + length bytes.now ≤ 65535 }
    ensures { out.new ≡ out.old ++ bytes.now }
{
    out.push(bytes);
}

/// Appends the header of an argument of so many bytes, which fits with them.
pub fn append_header(out: &mut Message, id: u8, size: usize)
    requires low { 0x20 ≤ id }
    requires high { id < 0x40 }
    requires fits { length out.old + length (header (written_form size) id size) + size ≤ 65535 }
    ensures { out.new ≡ out.old ++ header (written_form size) id size }
{
    if size < 255 {
        append(out, &[id, size as u8]);
    } else {
        let size = (size as u16).to_be_bytes();
        append(out, &[id + 0x80, 0, size[0], size[1]]);
    }
}

/// Replaces the message by a request of one argument, whose bytes are given in three parts.
pub fn put(out: &mut Message, number: u8, id: u8, front: &[u8], some: &[u8], last: &[u8])
    requires low { 0x20 ≤ id }
    requires high { id < 0x40 }
    requires fits { length (number ∷ 1 ∷ arg_text (record {
      id = id;
      bytes = front.now
          ++ (some.now ++ last.now);
    })) ≤ 65535 }
    ensures { out.new ≡ number ∷ 1 ∷ arg_text (record {
      id = id;
      bytes = front.now
          ++ (some.now ++ last.now);
    }) }
{
    out.clear();
    append(out, &[number, 1]);
    append_header(out, id, front.len() + some.len() + last.len());
    append(out, front);
    append(out, some);
    append(out, last);
}

/// Replaces the message by the beginning of a request of one argument of so many bytes, which fits with them.
pub fn begin(out: &mut Message, number: u8, id: u8, size: usize)
    requires low { 0x20 ≤ id }
    requires high { id < 0x40 }
    requires fits { 2 + length (header (written_form size) id size) + size ≤ 65535 }
    ensures { out.new ≡ number ∷ 1 ∷ header (written_form size) id size }
{
    out.clear();
    append(out, &[number, 1]);
    append_header(out, id, size);
}
