//! What the answers below 0 mean.

ghost use Rattle.std.specs.Prelude.{◌≡◌};
ghost use Rattle.hotsync_c.specs.Rooms.{PutsIn};
ghost use Rattle.hotsync_c.specs.Whys.{why};

use crate::room::put;

/// Puts the sentence into the room that says what an answer below 0 means. One number means one thing in all calls.
///
/// The answer is how long the sentence is: 0 where no call has that answer, or where it is no refusal.
#[unsafe(no_mangle)]
pub extern "C" fn hs_why(answer: i64, room: &mut [u8]) -> i64
    ensures { PutsIn (why answer) room.old room.new result }
{
    put(reason(answer).as_bytes(), room)
}

// The sentence of an answer.
fn reason(answer: i64) -> &'static str
    ensures { result.now ≡ why answer }
{
    match answer {
        -1 => "memory was refused",
        -2 => "the bytes are not of the form that is read",
        -3 => "the database has no such entry",
        -4 => "a side has more than 65,535 records",
        -5 => "the database holds resources",
        -6 => "the database is read-only",
        -7 => "the database is a stream",
        -8 => "the type or the creator differs between the sides",
        -9 => "a side lacks the database",
        -10 => "no handheld has such files",
        -11 => "the database holds nothing of that form",
        -12 => "a record is out of its form",
        -13 => "the text has more than 15 labels",
        -14 => "the text has more than 65,535 memos",
        ..=-101 => "a line is out of its form: its number is -100 less the answer",
        _ => "",
    }
}
