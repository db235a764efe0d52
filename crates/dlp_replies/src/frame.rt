// Replies put into messages, by their layouts.
ghost use Rattle.std.specs.Prelude.{◌≡◌, ◌≤◌, ◌<◌, ◌+◌, ◌++◌, ◌∷◌, length};
ghost use Rattle.dlp_args.specs.Arguments.{arg_text};
ghost use Rattle.dlp_replies.specs.Frames.{With, frame_text};
ghost use Rattle.dlp_replies.specs.Layouts as layouts;

use dlp_args::{Message, append, append_header};
use pdb_values::{Category, RecordId};

// Replaces the message by a reply of one argument, whose bytes are given in three parts.
fn put(out: &mut Message, number: u8, front: &[u8], some: &[u8], last: &[u8])
    requires number { number < 0x80 }
    requires fits { length ((number + 0x80) ∷ 1 ∷ 0 ∷ 0 ∷ arg_text (record {
      id = 0x20;
      bytes = front.now
          ++ (some.now ++ last.now);
    })) ≤ 65535 }
    ensures { out.new ≡ (number + 0x80) ∷ 1 ∷ 0 ∷ 0 ∷ arg_text (record {
      id = 0x20;
      bytes = front.now
          ++ (some.now ++ last.now);
    }) }
{
    out.clear();
    append(out, &[number + 0x80, 1, 0, 0]);
    append_header(out, 0x20, front.len() + some.len() + last.len());
    append(out, front);
    append(out, some);
    append(out, last);
}

// What the handheld is.
pub(crate) fn put_sys_info(out: &mut Message, rom: u32, locale: u32, product: &[u8])
    requires short { length product.now ≤ 255 }
    requires fits { length (frame_text (With 0x12 layouts.sys_info (
      rom,
      (locale, (tt, (length product.now, (product.now, tt)))),
    ))) ≤ 65535 }
    ensures { out.new ≡ frame_text (With 0x12 layouts.sys_info (
      rom,
      (locale, (tt, (length product.now, (product.now, tt)))),
    )) }
{
    let rom = rom.to_be_bytes();
    let locale = locale.to_be_bytes();
    let front = [
        rom[0],
        rom[1],
        rom[2],
        rom[3],
        locale[0],
        locale[1],
        locale[2],
        locale[3],
        0,
        product.len() as u8,
    ];
    put(out, 0x12, &front, product, &[]);
}

// A handle.
pub(crate) fn put_handle_alone(out: &mut Message, number: u8, handle: u8)
    requires number { number < 0x80 }
    requires fits { length (frame_text (With number layouts.handle_alone (handle, tt))) ≤ 65535 }
    ensures { out.new ≡ frame_text (With number layouts.handle_alone (handle, tt)) }
{
    put(out, number, &[handle], &[], &[]);
}

// A block behind its size.
pub(crate) fn put_block(out: &mut Message, number: u8, bytes: &[u8])
    requires number { number < 0x80 }
    requires short { length bytes.now ≤ 65500 }
    requires fits { length (frame_text (With number layouts.block (bytes.now, tt))) ≤ 65535 }
    ensures { out.new ≡ frame_text (With number layouts.block (bytes.now, tt)) }
{
    let size = (bytes.len() as u16).to_be_bytes();
    put(out, number, &[size[0], size[1]], bytes, &[]);
}

// A number of entries.
pub(crate) fn put_count_alone(out: &mut Message, number: u8, count: u16)
    requires number { number < 0x80 }
    requires fits { length (frame_text (With number layouts.count_alone (count, tt))) ≤ 65535 }
    ensures { out.new ≡ frame_text (With number layouts.count_alone (count, tt)) }
{
    let count = count.to_be_bytes();
    put(out, number, &[count[0], count[1]], &[], &[]);
}

// The id of a written record.
pub(crate) fn put_id_alone(out: &mut Message, number: u8, id: RecordId)
    requires number { number < 0x80 }
    requires fits { length (frame_text (With number layouts.id_alone (id, tt))) ≤ 65535 }
    ensures { out.new ≡ frame_text (With number layouts.id_alone (id, tt)) }
{
    let id = id.number().to_be_bytes();
    put(out, number, &[id[0], id[1], id[2], id[3]], &[], &[]);
}

// A record.
pub(crate) fn put_record(
    out: &mut Message,
    number: u8,
    id: RecordId,
    index: u16,
    size: u16,
    attributes: u8,
    category: Category,
    bytes: &[u8],
)
    requires number { number < 0x80 }
    requires fits { length (frame_text (With number layouts.record_reply (
      id,
      (index, (size, (attributes, (category, (bytes.now, tt))))),
    ))) ≤ 65535 }
    ensures { out.new ≡ frame_text (With number layouts.record_reply (
      id,
      (index, (size, (attributes, (category, (bytes.now, tt))))),
    )) }
{
    let id = id.number().to_be_bytes();
    let index = index.to_be_bytes();
    let size = size.to_be_bytes();
    let category = category.number();
    let front = [
        id[0], id[1], id[2], id[3], index[0], index[1], size[0], size[1], attributes, category,
    ];
    put(out, number, &front, bytes, &[]);
}

// A resource.
pub(crate) fn put_resource(
    out: &mut Message,
    kind: &[u8; 4],
    id: u16,
    index: u16,
    size: u16,
    bytes: &[u8],
)
    requires short { length bytes.now ≤ 65500 }
    requires fits { length (frame_text (With 0x23 layouts.resource_reply (
      kind.now,
      (id, (index, (size, (bytes.now, tt)))),
    ))) ≤ 65535 }
    ensures { out.new ≡ frame_text (With 0x23 layouts.resource_reply (
      kind.now,
      (id, (index, (size, (bytes.now, tt)))),
    )) }
{
    let id = id.to_be_bytes();
    let index = index.to_be_bytes();
    let size = size.to_be_bytes();
    let middle = [id[0], id[1], index[0], index[1], size[0], size[1]];
    put(out, 0x23, kind, &middle, bytes);
}
