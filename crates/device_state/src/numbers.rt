//! What a talk holds in numbers, as bytes.
ghost use Rattle.std.specs.Prelude.{◌≡◌, ◌+◌, ◌*◌, IfSome, None, Option};
ghost use Rattle.device_state.specs.Numbers.{numbers_text, over_code, receiver_numbers, sender_numbers};
ghost use Rattle.padp_link.specs.declared.parts.ReceiverParts.{ReceiverParts};
ghost use Rattle.device_stream.specs.declared.talk_end.TalkEnd.{TalkEnd};
ghost use Rattle.device_stream.specs.declared.parts.TalkParts.{TalkParts};

use device_stream::{EndParts, ReceiverParts, SenderParts, TalkEnd, TalkParts};
use padp_link::Key;
use palm_device::Handles;

/// How many bytes the numbers of a receiver have.
const RECEIVER: usize = 10;

/// How many bytes the numbers of a sender have.
const SENDER: usize = 5;

/// How many bytes the numbers of a talk have.
const COUNT: usize = RECEIVER + SENDER + 3;

/// What stands where there is no key.
const NO_KEY: Key = Key {
    id: 0,
    flags: 0,
    size: 0,
};

/// The numbers of a talk, as bytes.
pub(crate) fn numbers_of(parts: &TalkParts) -> [u8; COUNT]
    ensures { result ≡ numbers_text parts.now }
{
    let receiver = &parts.end.receiver;
    let sender = parts.end.sender;
    let key = receiver.last.unwrap_or(NO_KEY);
    [
        u8::from(receiver.awaited.is_some()),
        receiver.awaited.unwrap_or(0),
        (receiver.length / 256) as u8,
        (receiver.length % 256) as u8,
        receiver.taken,
        u8::from(receiver.last.is_some()),
        key.id,
        key.flags,
        (key.size / 256) as u8,
        (key.size % 256) as u8,
        sender.id,
        (sender.length / 256) as u8,
        (sender.length % 256) as u8,
        sender.acknowledged,
        sender.tries,
        parts.number,
        u8::from(parts.greeted),
        over_code(parts.over),
    ]
}

/// What a talk holds that has these numbers, what came of a message, the message that is sent, and
/// these handles.
pub(crate) fn parts_of(
    numbers: &[u8],
    received: Vec<u8>,
    message: Vec<u8>,
    handles: Handles,
) -> Option<TalkParts>
    ensures found { IfSome result (λ parts. numbers.now ≡ numbers_text parts) }
    ensures received { IfSome result (λ parts. parts.end.receiver.received ≡ received) }
    ensures message { IfSome result (λ parts. parts.end.message ≡ message) }
    ensures handles { IfSome result (λ parts. parts.handles ≡ handles) }
    ensures none { result ≡ None → (parts : TalkParts) → ¬ (numbers.now ≡ numbers_text parts) }
{
    let (receiver, rest) = numbers.split_first_chunk::<RECEIVER>()?;
    let (sender, rest) = rest.split_first_chunk::<SENDER>()?;
    let [number, greeted, over] = *rest else {
        return None;
    };
    let parts = TalkParts {
        end: EndParts {
            receiver: receiver_of(*receiver, received),
            sender: sender_of(*sender),
            message,
        },
        handles,
        number,
        greeted: greeted == 1,
        over: over_of(over),
    };
    // Bytes that are no text of numbers are not those of what was read of them.
    let is_kept = numbers == numbers_of(&parts).as_slice();
    is_kept.then_some(parts)
}

// What a receiver with these numbers holds. Bytes that no receiver has are read as those of some.
fn receiver_of(numbers: [u8; RECEIVER], received: Vec<u8>) -> ReceiverParts
    ensures numbers { (receiver : ReceiverParts) → numbers ≡ receiver_numbers receiver
        → receiver_numbers result ≡ numbers }
    ensures received { result.received ≡ received }
{
    let [
        awaits,
        awaited,
        length_high,
        length_low,
        taken,
        has_last,
        id,
        flags,
        size_high,
        size_low,
    ] = numbers;
    let last = Key {
        id,
        flags,
        size: number_of(size_high, size_low),
    };
    ReceiverParts {
        awaited: (awaits == 1).then_some(awaited),
        length: number_of(length_high, length_low),
        taken,
        received,
        last: (has_last == 1).then_some(last),
    }
}

// What a sender with these numbers holds.
fn sender_of(numbers: [u8; SENDER]) -> SenderParts
    ensures { sender_numbers result ≡ numbers }
{
    let [id, length_high, length_low, acknowledged, tries] = numbers;
    SenderParts {
        id,
        length: number_of(length_high, length_low),
        acknowledged,
        tries,
    }
}

/// The number of two bytes, the high one first.
pub(crate) fn number_of(high: u8, low: u8) -> u16
    ensures { result ≡ high * 256 + low }
{
    u16::from(high) * 256 + u16::from(low)
}

// The code of how a talk is over.
fn over_code(over: Option<TalkEnd>) -> u8
    ensures { result ≡ over_code over }
{
    match over {
        None => 0,
        Some(TalkEnd::Ended) => 1,
        Some(TalkEnd::Aborted) => 2,
        Some(TalkEnd::BadHello) => 3,
    }
}

// How a talk with this code is over.
fn over_of(code: u8) -> Option<TalkEnd>
    ensures { (over : Option TalkEnd) → over_code over ≡ code → result ≡ over }
{
    match code {
        1 => Some(TalkEnd::Ended),
        2 => Some(TalkEnd::Aborted),
        3 => Some(TalkEnd::BadHello),
        _ => None,
    }
}
