// A packet as text.
ghost use Rattle.std.specs.Prelude.{◌≡◌, ◌++◌, IfOk, OnOk, string_bytes};
ghost use Rattle.slp_frames.specs.PacketValues.{lent_value};
ghost use Rattle.padp_link.specs.FragmentValues.{fragment_value};
ghost use Rattle.trace_text.specs.PacketLines.{ShowsPacket, ShowsBody, fragment_words, body_words, header_words, kind_word as word_of};

use padp_link::{Fragment, PadpKind, read_fragment};
use slp_frames::PacketLent;
use std::alloc::{AllocError, Global};
use std::fmt::Write;

/// What a packet is, in words: `slp DEST SOURCE TYPE id ID` in decimal, and then its body. Where that is a
/// fragment, it is ` padp KIND FLAGS SIZE data N`, with the kind `data`, `ack`, `tickle` or `abort`, the flags
/// in two hexadecimal digits and the number of the bytes of a message; else it is ` body N`.
pub fn show_packet(alloc: Global, packet: &PacketLent<'_>) -> Result<String, AllocError>
    ensures { IfOk result (λ text. ShowsPacket (lent_value packet.now) (string_bytes text)) }
{
    let mut text = header_words(alloc, packet)?;
    let body = show_body(alloc, packet.body)?;
    text.push_str(body.as_str())?;
    Ok(text)
}

#[tactic(auto, unfolding(crate::specs::PacketLines::header_words))]
fn header_words(alloc: Global, packet: &PacketLent<'_>) -> Result<String, AllocError>
    ensures { IfOk result (λ text. string_bytes text ≡ header_words (lent_value packet.now)) }
{
    let (dest, source, kind, id) = (packet.dest, packet.source, packet.kind, packet.id);
    let mut text = String::from_str(alloc, "slp ")?;
    write!(text, "{dest} {source} {kind} id {id}")?;
    Ok(text)
}

fn show_body(alloc: Global, body: &[u8]) -> Result<String, AllocError>
    ensures { IfOk result (λ text. ShowsBody body.now (string_bytes text)) }
{
    match read_fragment(body) {
        Ok(fragment) => fragment_words(alloc, &fragment),
        Err(_) => body_words(alloc, body),
    }
}

#[tactic(auto, unfolding(crate::specs::PacketLines::fragment_words))]
fn fragment_words(alloc: Global, fragment: &Fragment<'_>) -> Result<String, AllocError>
    ensures { IfOk result (λ text. string_bytes text
        ≡ fragment_words (fragment_value fragment.now)) }
{
    let flags = hex::encode(alloc, [fragment.flags])?;
    let (size, len) = (fragment.size, fragment.bytes.len());
    let mut text = String::from_str(alloc, " padp ")?;
    text.push_str(kind_word(fragment.kind))?;
    text.push_str(" ")?;
    text.push_str(flags.as_str())?;
    write!(text, " {size} data {len}")?;
    Ok(text)
}

fn body_words(alloc: Global, body: &[u8]) -> Result<String, AllocError>
    ensures { IfOk result (λ text. string_bytes text ≡ body_words body.now) }
{
    let len = body.len();
    let mut text = String::from_str(alloc, " body ")?;
    write!(text, "{len}")?;
    Ok(text)
}

fn kind_word(kind: PadpKind) -> &'static str
    ensures { result.now ≡ word_of kind }
{
    match kind {
        PadpKind::Data => "data",
        PadpKind::Ack => "ack",
        PadpKind::Tickle => "tickle",
        PadpKind::Abort => "abort",
    }
}
