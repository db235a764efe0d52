// A reader of packets, a sender and a receiver, and fragments and greetings.
use arrayvec::ArrayVec;
use case_words::{bytes_at, short_in, word};
use cmp_hello::{read_hello, write_hello};
use padp_link::{Key, PadpKind, Receiver, Sender, read_fragment, write_fragment};
use slp_frames::SlpReader;
use std::alloc::{AllocError, Global};

/// A reader of packets, a sender and a receiver.
#[derive(Drop)]
pub struct Ends {
    reader: SlpReader,
    sender: Sender,
    receiver: Receiver,
}

impl Ends {
    /// Those that took nothing yet.
    pub fn new(alloc: Global) -> Result<Ends, AllocError> {
        Ok(Ends {
            reader: SlpReader::new(),
            sender: Sender::new(),
            receiver: Receiver::new(alloc)?,
        })
    }
}

/// What a line asks for.
///
/// - `feed H`, `next`, `gap` and `tally` of one reader of packets, `reader` a new one.
/// - `fragment H`, the fragment in these bytes; `hello H`, the greeting.
/// - `send ID LENGTH`, `current`, `ack ID FLAGS SIZE`, `timer` and `answered ID` of one sender; `expect ID`, `data ID H` and
///   `whole` of one receiver, `receiver` a new one.
pub fn obey(alloc: Global, ends: &mut Ends, words: &[&str]) -> Result<String, AllocError> {
    match word(words, 0) {
        "reader" => {
            ends.reader = SlpReader::new();
            String::from_str(alloc, "reader")
        }
        "feed" => {
            let bytes = bytes_at(alloc, words, 1);
            format!(in alloc; "fed {}", ends.reader.feed(&bytes))
        }
        "next" => next(alloc, &mut ends.reader),
        "gap" => {
            ends.reader.gap();
            String::from_str(alloc, "gap")
        }
        "tally" => {
            let tally = ends.reader.tally();
            format!(in alloc; "bytes {} packets {}", tally.bytes(), tally.packets())
        }
        "fragment" => fragment(alloc, &bytes_at(alloc, words, 1)),
        "hello" => hello(alloc, &bytes_at(alloc, words, 1)),
        _ => send(alloc, ends, words),
    }
}

fn next(alloc: Global, reader: &mut SlpReader) -> Result<String, AllocError> {
    match reader.next() {
        Some(packet) => {
            let body = hex::encode(alloc, packet.body)?;
            format!(in alloc;
                "dest {} source {} kind {} id {} body {body}",
                packet.dest, packet.source, packet.kind, packet.id
            )
        }
        None => String::from_str(alloc, "none"),
    }
}

// What a line asks of the sender, or of the receiver. `answered` is a message of one piece, answered before it is
// acknowledged.
fn send(alloc: Global, ends: &mut Ends, words: &[&str]) -> Result<String, AllocError> {
    let sender = &mut ends.sender;
    let id = byte_at(words, 1);
    match word(words, 0) {
        "send" => {
            *sender = Sender::new();
            sender.start(id, short_in(word(words, 2)));
            current(alloc, sender)
        }
        "current" => current(alloc, sender),
        "ack" => {
            let key = Key {
                id,
                flags: byte_at(words, 2),
                size: short_in(word(words, 3)),
            };
            format!(in alloc; "{}", sender.on_ack(key))
        }
        "timer" => String::from_str(alloc, timer(sender)),
        "answered" => {
            sender.start(id, 12);
            sender.on_answer();
            current(alloc, sender)
        }
        _ => receive(alloc, &mut ends.receiver, words, id),
    }
}

fn current(alloc: Global, sender: &Sender) -> Result<String, AllocError> {
    match sender.current() {
        Some(piece) => format!(in alloc;
            "id {} flags {:02x} size {} place {} length {}",
            piece.key.id, piece.key.flags, piece.key.size, piece.place, piece.length
        ),
        None => String::from_str(alloc, "nothing waits"),
    }
}

fn timer(sender: &mut Sender) -> &'static str {
    if sender.current().is_none() {
        "nothing waits"
    } else if sender.on_timer().is_ok() {
        "again"
    } else {
        "spent"
    }
}

// What a line asks of the receiver.
fn receive(
    alloc: Global,
    receiver: &mut Receiver,
    words: &[&str],
    id: u8,
) -> Result<String, AllocError> {
    match word(words, 0) {
        "receiver" => {
            *receiver = Receiver::new(alloc)?;
            String::from_str(alloc, "receiver")
        }
        "expect" => {
            receiver.expect(id);
            String::from_str(alloc, "expects")
        }
        "data" => match read_fragment(&bytes_at(alloc, words, 2)) {
            Ok(fragment) if fragment.kind == PadpKind::Data => {
                format!(in alloc; "{:?}", receiver.on_data(id, &fragment))
            }
            _ => String::from_str(alloc, "no data"),
        },
        "whole" => match receiver.whole() {
            Some(message) => {
                let text = hex::encode(alloc, message)?;
                format!(in alloc; "whole {text}")
            }
            None => String::from_str(alloc, "not whole"),
        },
        _ => String::from_str(alloc, "no such line"),
    }
}

// The fragment in some bytes, its key under id 7, and its bytes once it is written.
fn fragment(alloc: Global, body: &[u8]) -> Result<String, AllocError> {
    match read_fragment(body) {
        Ok(fragment) => {
            let mut text = ArrayVec::new();
            write_fragment(&fragment, &mut text);
            let key = fragment.key(7);
            let data = hex::encode(alloc, fragment.bytes)?;
            let text = hex::encode(alloc, text.as_slice())?;
            format!(in alloc;
                "{:?} flags {:02x} size {} data -{data} key {} {:02x} {} written {text}",
                fragment.kind, fragment.flags, fragment.size, key.id, key.flags, key.size
            )
        }
        Err(fault) => format!(in alloc; "{fault:?}"),
    }
}

// The greeting in some bytes, and its bytes once it is written.
fn hello(alloc: Global, bytes: &[u8]) -> Result<String, AllocError> {
    match read_hello(bytes) {
        Ok(hello) => {
            let text = hex::encode(alloc, write_hello(&hello).as_slice())?;
            format!(in alloc;
                "{:?} flags {:02x} minor {} rate {} written {text}",
                hello.kind, hello.flags, hello.minor, hello.rate
            )
        }
        Err(fault) => format!(in alloc; "{fault:?}"),
    }
}

// The number of one byte in the word at this place, or 0.
fn byte_at(words: &[&str], place: usize) -> u8 {
    word(words, place).parse().unwrap_or(0)
}
